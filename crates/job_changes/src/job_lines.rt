//! Changes of jobs: texts of lines, which are words with spaces between.

ghost use Rattle.std.specs.Prelude.{◌≡◌, ◌≢◌, ◌+◌, ◌<◌, ◌≤◌, ◌⊎◌, ◌∷◌, [], ◌++◌, ℕ, false, if◌then◌else◌, IfOk, OnOk, is_ok, is_some, length, map, slice_index_or, slice_set, string_bytes, true};
ghost use Rattle.std.specs.Bool.{MatchBool};
ghost use Rattle.std.specs.List.{insert, list_any, remove};
ghost use Rattle.std.specs.Option.{option_map};
ghost use Rattle.std.specs.Str.Lines.{lines};
ghost use Rattle.job_changes.specs.Fuel.{AreLimited, AsksBeyond, AsksWithin, IsBeyond, IsLimited, IsWithin, fuel_in, fuel_line, has_fuel, words_of};
ghost use Rattle.job_changes.specs.Lines.{AreFrom, IsChange, joined};

use crate::generator::Generator;
use crate::job_words::{any_kind, any_line, any_word, count_of, with_odd, with_words};
use std::alloc::{AllocError, Global};
use std::marker::Model;

/// The lines of a job, in order.
#[derive(Drop)]
pub struct JobLines {
    alloc: Global,
    lines: Vec<String>,
}

impl Model for JobLines {
    ghost use Rattle.std.specs.Prelude.{ℕ, List, map, string_bytes};

    ghost Value = { List (List ℕ) };

    ghost view = { λ job. map string_bytes job.lines.items };
}

/// How often a word or some lines may come again, and once in a while much more often.
const TIMES: [u64; 8] = [2, 2, 2, 3, 3, 4, 17, 65];

/// The parts of a text that are its lines.
fn parts_of(alloc: Global, text: &str) -> Result<Vec<&str>, AllocError>
    ensures { IfOk result (λ parts. map (λ part. part.now) parts.items ≡ lines text.now) }
{
    text.lines().collect(alloc)
}

/// A copy of each.
fn copies_of(alloc: Global, parts: &[&str]) -> Result<Vec<String>, AllocError>
    ensures { IfOk result (λ lines. map string_bytes lines.items ≡ map (λ part. part.now) parts.now) }
{
    let mut lines = Vec::new(alloc);
    for part in parts {
        lines.push(String::from_str(alloc, part)?)?;
    }
    Ok(lines)
}

/// Lines as one text, with a line feed behind each.
fn text_of(alloc: Global, lines: &[String]) -> Result<String, AllocError>
    ensures { IfOk result (λ text. string_bytes text ≡ joined (map string_bytes lines.now)) }
{
    let mut text = String::new(alloc);
    for line in lines {
        text.push_str(line.as_str())?;
        text.push('\n')?;
    }
    Ok(text)
}

impl JobLines {
    /// The lines of a text.
    pub fn of(alloc: Global, text: &str) -> Result<JobLines, AllocError>
        ensures { IfOk result (λ job. job ≡ lines text.now) }
    {
        let parts = parts_of(alloc, text)?;
        let lines = copies_of(alloc, &parts)?;
        Ok(JobLines { alloc, lines })
    }

    /// The text of the lines, with a line feed behind each.
    pub fn text(&self) -> Result<String, AllocError>
        ensures { IfOk result (λ text. string_bytes text ≡ joined self.now) }
    {
        text_of(self.alloc, &self.lines)
    }

    /// How many lines there are.
    fn count(&self) -> usize
        ensures { result ≡ length self.now }
    {
        self.lines.len()
    }

    /// The number of a line by chance; of none where there is none.
    fn any(&self, generator: &mut Generator) -> usize {
        generator.below(self.lines.len() as u64) as usize
    }

    /// A copy of a line; an empty one where there is none.
    fn copy(&self, number: usize) -> Result<String, AllocError>
        ensures { IfOk result (λ line. string_bytes line ≡ slice_index_or self.now number []) }
    {
        match self.lines.get(number) {
            Some(line) => line.clone(),
            None => Ok(String::new(self.alloc)),
        }
    }

    /// Puts a line in the place of one.
    #[tactic(auto, using(crate::proofs::Lines::view_set, crate::proofs::Lines::view_past))]
    fn set(&mut self, number: usize, line: String)
        ensures { self.new ≡ slice_set self.old number (string_bytes line) }
    {
        if number < self.lines.len() {
            self.lines[number] = line;
        }
    }

    /// Puts a line behind all.
    #[tactic(auto, using(crate::proofs::Lines::view_push))]
    fn push(&mut self, line: String) -> Result<(), AllocError>
        ensures { self.new ≡ (if is_ok result then self.old ++ string_bytes line ∷ [] else self.old) }
    {
        self.lines.push(line)?;
        Ok(())
    }

    /// Puts a line before one.
    #[tactic(auto, using(crate::proofs::Lines::view_insert))]
    fn insert(&mut self, number: usize, line: String) -> Result<(), AllocError>
        ensures { (self.new ≡ self.old)
            ⊎ ((number ≤ length self.old) × (self.new ≡ insert self.old number (string_bytes line))) }
    {
        if number <= self.lines.len() {
            self.lines.insert(number, line)?;
        }
        Ok(())
    }

    /// Drops a line, of those that there are.
    #[tactic(auto, using(crate::proofs::Lines::view_remove))]
    fn drop_line(&mut self, number: usize)
        ensures { (self.new ≡ self.old) ⊎ ((number < length self.old) × (self.new ≡ remove self.old number)) }
    {
        if number < self.lines.len() {
            let _dropped = self.lines.remove(number);
        }
    }

    /// Gives a line another word, or none, or one several times.
    #[tactic(auto, using(crate::proofs::Lines::change_none, crate::proofs::Lines::change_set))]
    fn change_word(
        &mut self,
        generator: &mut Generator,
        files: &[&'static str],
    ) -> Result<(), AllocError>
        ensures { IsChange self.old self.new }
    {
        let number = self.any(generator);
        let line = self.copy(number)?;
        let other = self.copy(self.any(generator))?;
        let word = any_word(self.alloc, generator, files, other.as_str())?;
        let place = generator.below(count_of(line.as_str()));
        let count = match generator.below(16) {
            0 => 0,
            1 => generator.pick(&TIMES).unwrap_or(2),
            _ => 1,
        };
        let changed = with_words(self.alloc, line.as_str(), place, word.as_str(), count)?;
        self.set(number, changed);
        Ok(())
    }

    /// Doubles a word of a line, or more.
    #[tactic(auto, using(crate::proofs::Lines::change_none, crate::proofs::Lines::change_set))]
    fn repeat_word(&mut self, generator: &mut Generator) -> Result<(), AllocError>
        ensures { IsChange self.old self.new }
    {
        let number = self.any(generator);
        let line = self.copy(number)?;
        let place = generator.below(count_of(line.as_str()));
        let word = line.split(' ').nth(place as usize).unwrap_or("");
        let count = generator.pick(&TIMES).unwrap_or(2);
        let changed = with_words(self.alloc, line.as_str(), place, word, count)?;
        self.set(number, changed);
        Ok(())
    }

    /// Drops a line, or by chance none.
    #[tactic(auto, using(crate::proofs::Lines::from_self, crate::proofs::Lines::dropped_from, crate::proofs::Lines::dropped_fewer, crate::proofs::Lines::dropped_no_more))]
    fn drop_by_chance(&mut self, generator: &mut Generator, number: usize)
        ensures from { AreFrom self.old [] self.new }
        ensures fewer { length self.old ≤ length self.new + 1 }
        ensures no_more { length self.new ≤ length self.old }
    {
        if generator.is_one_in(2) {
            self.drop_line(number);
        }
    }

    /// Drops any line.
    fn drop_any(&mut self, generator: &mut Generator)
        ensures { IsChange self.old self.new }
    {
        let number = self.any(generator);
        self.drop_line(number);
    }

    /// Puts a copy of a line somewhere, or moves it there.
    #[tactic(auto, using(crate::proofs::Lines::change_none, crate::proofs::Lines::change_dropped, crate::proofs::Lines::change_moved, crate::proofs::Lines::line_from))]
    fn move_line(&mut self, generator: &mut Generator) -> Result<(), AllocError>
        ensures { IsChange self.old self.new }
    {
        let number = self.any(generator);
        let line = self.copy(number)?;
        self.drop_by_chance(generator, number);
        let place = self.any(generator);
        self.insert(place, line)
    }

    /// Exchanges two lines.
    #[tactic(auto, using(crate::proofs::Lines::change_none, crate::proofs::Lines::change_exchanged))]
    fn exchange_lines(&mut self, generator: &mut Generator) -> Result<(), AllocError>
        ensures { IsChange self.old self.new }
    {
        let one = self.any(generator);
        let other = self.any(generator);
        let first = self.copy(one)?;
        let second = self.copy(other)?;
        self.set(one, second);
        self.set(other, first);
        Ok(())
    }

    /// Adds a line.
    #[tactic(auto, using(crate::proofs::Lines::change_none, crate::proofs::Lines::change_inserted))]
    fn add_line(
        &mut self,
        generator: &mut Generator,
        files: &[&'static str],
    ) -> Result<(), AllocError>
        ensures { IsChange self.old self.new }
    {
        let line = any_line(self.alloc, generator, files)?;
        let place = self.any(generator).saturating_add(1);
        self.insert(place, line)
    }

    /// Gives an image another kind.
    #[tactic(auto, using(crate::proofs::Lines::change_none, crate::proofs::Lines::change_set))]
    fn change_kind(&mut self, generator: &mut Generator) -> Result<(), AllocError>
        ensures { IsChange self.old self.new }
    {
        let number = self.any(generator);
        let line = self.copy(number)?;
        if line.starts_with("image ") {
            let kind = any_kind(generator);
            let changed = with_words(self.alloc, line.as_str(), 2, kind, 1)?;
            self.set(number, changed);
        }
        Ok(())
    }

    /// Puts a copy of a line behind all.
    fn push_copy(&mut self, number: usize) -> Result<(), AllocError>
        ensures from { AreFrom self.old [] self.new }
        ensures no_fewer { length self.old ≤ length self.new }
        ensures more { length self.new ≤ length self.old + 1 }
    {
        let line = self.copy(number)?;
        self.push(line)
    }

    /// Puts a copy of so many lines, from one on, behind all.
    #[tactic(auto, using(crate::proofs::Lines::from_self, crate::proofs::Lines::from_across))]
    fn repeat_once(&mut self, first: usize, count: u64) -> Result<(), AllocError>
        ensures from { AreFrom self.old [] self.new }
        ensures no_fewer { length self.old ≤ length self.new }
        ensures more { length self.new ≤ length self.old + count }
    {
        for step in 0..count {
            self.push_copy(first.saturating_add(step as usize))?;
        }
        Ok(())
    }

    /// Repeats up to three lines at the end, and once in many times very often.
    #[tactic(auto, using(crate::proofs::Lines::from_self, crate::proofs::Lines::from_across, crate::proofs::Lines::change_repeated))]
    fn repeat_lines(&mut self, generator: &mut Generator) -> Result<(), AllocError>
        ensures { IsChange self.old self.new }
    {
        let first = self.any(generator);
        let count = generator.below(3).saturating_add(1);
        for _ in 0..any_times(generator) {
            self.repeat_once(first, count)?;
        }
        Ok(())
    }

    /// Changes a character.
    #[tactic(auto, using(crate::proofs::Lines::change_none, crate::proofs::Lines::change_set))]
    fn change_character(&mut self, generator: &mut Generator) -> Result<(), AllocError>
        ensures { IsChange self.old self.new }
    {
        let number = self.any(generator);
        let line = self.copy(number)?;
        let changed = with_odd(self.alloc, generator, line.as_str())?;
        self.set(number, changed);
        Ok(())
    }

    /// Changes the job in one way that is drawn by chance. There are files of these names.
    pub fn change(
        &mut self,
        generator: &mut Generator,
        files: &[&'static str],
    ) -> Result<(), AllocError>
        ensures { IsChange self.old self.new }
    {
        match generator.below(24) {
            0 | 1 => {
                self.drop_any(generator);
                Ok(())
            }
            2..=4 => self.move_line(generator),
            5..=7 => self.exchange_lines(generator),
            8..=10 => self.add_line(generator, files),
            11 => self.repeat_lines(generator),
            12 | 13 => self.repeat_word(generator),
            14 => self.change_character(generator),
            15 => self.change_kind(generator),
            _ => self.change_word(generator, files),
        }
    }

    /// Makes a line the limit where it asks for more fuel than this, and says whether it gives fuel at all.
    fn limit_line(&mut self, number: usize, most: u64, limit: &str) -> Result<bool, AllocError>
        requires within { number < length self.old }
        requires limit { limit.now ≡ fuel_line most }
        ensures limited { OnOk result (IsLimited most (slice_index_or self.old number []) (slice_index_or self.new number [])) }
        ensures others { (k : ℕ) → k ≢ number → slice_index_or self.new k [] ≡ slice_index_or self.old k [] }
        ensures count { length self.new ≡ length self.old }
        ensures gives { IfOk result (λ gives. gives ≡ has_fuel (slice_index_or self.old number [])) }
    {
        let line = self.copy(number)?;
        let Some(is_more) = asks_for_more(self.alloc, line.as_str(), most)? else {
            return Ok(false);
        };
        if is_more {
            self.set(number, String::from_str(self.alloc, limit)?);
        }
        Ok(true)
    }

    /// Makes each line the limit that asks for more fuel than this, and says whether any gives fuel.
    fn limit_lines(&mut self, most: u64, limit: &str) -> Result<bool, AllocError>
        requires { limit.now ≡ fuel_line most }
        ensures limited { OnOk result (AreLimited most self.old self.new) }
        ensures count { length self.new ≡ length self.old }
        ensures gives { IfOk result (λ gives. gives ≡ list_any has_fuel self.old) }
    {
        let mut is_said = false;
        for number in 0..self.count() {
            if self.limit_line(number, most, limit)? {
                is_said = true;
            }
        }
        Ok(is_said)
    }

    /// Lets no line ask for more fuel than this, and adds a line for it where none has any. A line that is read as
    /// another than one of fuel stays.
    pub fn limit_fuel(&mut self, most: u64) -> Result<(), AllocError>
        ensures limited { OnOk result (AreLimited most self.old self.new) }
        ensures more { OnOk result (MatchBool (list_any has_fuel self.old) (length self.new ≡ length self.old)
            ((length self.new ≡ length self.old + 1) × (slice_index_or self.new (length self.old) [] ≡ fuel_line most))) }
    {
        let limit = limit_of(self.alloc, most)?;
        if !self.limit_lines(most, limit.as_str())? {
            self.push(limit)?;
        }
        Ok(())
    }
}

/// How often lines are repeated at most: more often than a job may load modules.
const MOST_TIMES: u64 = 4_100;

/// How often lines are repeated.
fn any_times(generator: &mut Generator) -> u64
    ensures { result ≤ 4100 }
{
    if generator.is_one_in(200) {
        return MOST_TIMES;
    }
    generator.pick(&TIMES).unwrap_or(2).min(MOST_TIMES)
}

/// The line that gives so much fuel.
fn limit_of(alloc: Global, most: u64) -> Result<String, AllocError>
    ensures { IfOk result (λ line. string_bytes line ≡ fuel_line most) }
{
    format!(in alloc; "fuel {most}")
}

/// The words of a line: what stands between its spaces.
fn words_of(alloc: Global, line: &str) -> Result<Vec<&str>, AllocError>
    ensures { IfOk result (λ words. map (λ word. word.now) words.items ≡ words_of line.now) }
{
    line.split(' ')
        .filter(|word| !word.is_empty())
        .collect(alloc)
}

/// The word behind `fuel`, of words that begin so.
fn fuel_in<'a>(words: &[&'a str]) -> Option<&'a str>
    ensures { option_map (λ word. word.now) result ≡ fuel_in (map (λ word. word.now) words.now) }
{
    let first = words.first()?;
    if *first != "fuel" {
        return None;
    }
    words.get(1).copied()
}

/// Whether a number is greater than this, or may be.
fn is_more(word: &str, most: u64) -> bool
    ensures within { result ≡ false → IsWithin most word.now }
    ensures beyond { result ≡ true → IsBeyond most word.now }
{
    match word.parse::<u64>() {
        Ok(number) => number > most,
        Err(_) => word.starts_with("0x") && word.len() > 4,
    }
}

/// Whether a line of fuel asks for more than this, or may; of another line nothing.
fn asks_for_more(alloc: Global, line: &str, most: u64) -> Result<Option<bool>, AllocError>
    ensures fuel { IfOk result (λ asks. is_some asks ≡ has_fuel line.now) }
    ensures within { IfOk result (λ asks. (asks ≡ Some true) ⊎ AsksWithin most line.now) }
    ensures beyond { IfOk result (λ asks. asks ≡ Some true → AsksBeyond most line.now) }
{
    let words = words_of(alloc, line)?;
    match fuel_in(&words) {
        Some(word) => Ok(Some(is_more(word, most))),
        None => Ok(None),
    }
}
