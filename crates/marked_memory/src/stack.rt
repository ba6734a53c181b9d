//! A thread's stack. Only the bytes that were touched are stored.

ghost use Rattle.std.specs.Prelude.{◌≡◌, ◌<◌, ◌-◌, ◌≤◌, ◌++◌, [], IfOk, OnErr, OnOk, length, replicate, slice_get, slice_set};
ghost use Rattle.std.specs.Vec.{vec_capacity, vec_len};
ghost use Rattle.thread_blocks.specs.MachineTurns.{fresh_stack};
ghost use Rattle.whole_meaning.specs.Threads.{hidden_below, ops};
ghost use Rattle.marked_memory.specs.Stacks.{last_bytes};

use address_map::STACK_SIZE;
use job_meaning::Byte;
use std::alloc::{AllocError, Global};
use std::marker::Model;

/// A thread's stack. Most of it is never touched. The deepest bytes are all alike: zero before a call, unknown after a
/// sequence that calls. Only those above them are stored one by one, the highest first. Contracts see all bytes, the
/// lowest first.
#[derive(Drop)]
pub(crate) struct MarkedStack {
    /// The number of bytes: 0 before the first call.
    size: u64,
    /// The value of each byte that is not stored.
    deep: Byte,
    /// The bytes that are stored, the highest first.
    top: Vec<Byte>,
}

impl Model for MarkedStack {
    ghost use Rattle.std.specs.Prelude.{List};
    ghost use Rattle.job_meaning.specs.declared.values.Byte.{Byte};
    ghost use Rattle.marked_memory.specs.Stacks.{stack_of};

    ghost Value = { List Byte };

    ghost view = { λ stack. stack_of stack.size stack.deep stack.top.items };

    ghost use Rattle.marked_memory.specs.Stacks.{IsStack};

    ghost invariant = { IsStack };
}

/// The last eight bytes before a call, the highest first: the return address.
const LAST: [Byte; 8] = [
    Byte::Value(0),
    Byte::Value(0),
    Byte::Value(0),
    Byte::Value(0),
    Byte::Value(0),
    Byte::Value(0),
    Byte::Value(0x20),
    Byte::Value(0),
];

/// Makes room for a whole stack, unless there is room. Fails only when memory runs out, and then nothing has changed.
fn make_room(alloc: Global, top: &mut Vec<Byte>) -> Result<(), AllocError>
    ensures room { OnOk result (65536 ≤ vec_capacity top.new) }
    ensures err { OnErr result (top.new ≡ top.old) }
{
    if top.capacity() < STACK_SIZE as usize {
        *top = Vec::with_capacity(alloc, STACK_SIZE as usize)?;
    }
    Ok(())
}

/// Makes the stored bytes the return address alone, where there is room for it.
fn keep_last(top: &mut Vec<Byte>)
    requires { 8 ≤ vec_capacity top.old }
    ensures items { top.new.items ≡ last_bytes }
    ensures kept { vec_len top.new ≡ 8 }
    ensures capacity { vec_capacity top.old ≤ vec_capacity top.new }
{
    top.clear();
    match top.extend_from_slice(&LAST) {
        Ok(()) | Err(_) => {}
    }
}

/// The byte at `depth` below the top, if it is stored.
fn kept_byte(top: &Vec<Byte>, depth: u64) -> Option<Byte>
    ensures { result ≡ slice_get top.now.items depth }
{
    top.get(depth as usize).copied()
}

/// Stores at least `count` bytes one by one, where there is room for them.
fn keep(top: &mut Vec<Byte>, deep: Byte, count: u64)
    requires room { count ≤ vec_capacity top.old }
    requires kept { vec_len top.old ≡ length top.old.items }
    ensures items { top.new.items ≡ top.old.items ++ replicate (count - length top.old.items) deep }
    ensures kept { vec_len top.new ≡ length top.new.items }
    ensures capacity { vec_capacity top.old ≤ vec_capacity top.new }
{
    if top.len() as u64 >= count {
        return;
    }
    match top.resize(count as usize, deep) {
        Ok(()) | Err(_) => {}
    }
}

/// Writes a byte that is stored.
fn put(top: &mut Vec<Byte>, depth: u64, byte: Byte)
    requires { depth < length top.old.items }
    ensures items { top.new.items ≡ slice_set top.old.items depth byte }
    ensures len { vec_len top.new ≡ vec_len top.old }
    ensures capacity { vec_capacity top.new ≡ vec_capacity top.old }
{
    top[depth as usize] = byte;
}

impl MarkedStack {
    /// An empty stack.
    #[tactic(auto, unfolding(crate::specs::Stacks::stack_of, crate::specs::Stacks::down_from))]
    pub(crate) fn none(alloc: Global) -> MarkedStack
        ensures { result ≡ [] }
    {
        MarkedStack {
            size: 0,
            deep: Byte::Hidden,
            top: Vec::new(alloc),
        }
    }

    /// The number of bytes.
    pub(crate) fn len(&self) -> u64
        ensures { result ≡ length self.now }
    {
        self.size
    }

    /// Makes the stack as a call finds it. Fails only when memory runs out, and then nothing has changed.
    pub(crate) fn renew(&mut self, alloc: Global) -> Result<(), AllocError>
        ensures renewed { OnOk result (self.new ≡ fresh_stack ops) }
        ensures kept { OnErr result (self.new ≡ self.old) }
    {
        make_room(alloc, &mut self.top)?;
        keep_last(&mut self.top);
        self.size = STACK_SIZE;
        self.deep = Byte::Value(0);
        Ok(())
    }

    /// The byte at this index, counted from the lowest.
    pub(crate) fn byte(&self, within: u64) -> Option<Byte>
        ensures { result ≡ slice_get self.now within }
    {
        if within >= self.size {
            return None;
        }
        match kept_byte(&self.top, self.size - 1 - within) {
            Some(byte) => Some(byte),
            None => Some(self.deep),
        }
    }

    /// Writes the byte at this index, counted from the lowest.
    pub(crate) fn set_byte(&mut self, within: u64, byte: Byte)
        requires { within < length self.old }
        ensures { self.new ≡ slice_set self.old within byte }
    {
        let depth = self.size - 1 - within;
        keep(&mut self.top, self.deep, depth + 1);
        put(&mut self.top, depth, byte);
    }

    /// Makes the lowest `count` bytes unknown.
    pub(crate) fn hide(&mut self, count: u64)
        requires { count ≤ length self.old }
        ensures { self.new ≡ hidden_below count self.old }
    {
        let rest = self.size - count;
        keep(&mut self.top, self.deep, rest);
        self.top.truncate(rest as usize);
        self.deep = Byte::Hidden;
    }

    /// Copies the stack.
    pub(crate) fn copy(&self, alloc: Global) -> Result<MarkedStack, AllocError>
        ensures { IfOk result (λ stack. stack ≡ self.now) }
    {
        let mut top = Vec::with_capacity(alloc, self.size as usize)?;
        top.extend_from_slice(&self.top)?;
        Ok(MarkedStack {
            size: self.size,
            deep: self.deep,
            top,
        })
    }
}
