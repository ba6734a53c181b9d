//! Lists images: `image_listing FILE..` prints what each file spells, as the command `show` does.
//!
//! At the first file that is not an image it prints what is wrong with it, and ends with status 8.
//!
//! Its data are images of known small objects, linked in known ways by programs outside this repository; `stdout` is
//! what other programs print of them. data/README.md has each image's origin.
#![tactic(auto)]

use anyhow::Result;
use image_file::read;
use image_text::push_shown;
use std::io::Write;
use std::process::ExitCode;
use std::{env, fs, io};

/// The status for a file that is not an image.
const REFUSED: u8 = 8;

fn main(rt: HostRuntime) -> Result<ExitCode> {
    for name in env::args(&rt)?.skip(1) {
        let bytes = fs::read(&rt, name.as_str())?;
        match read(rt.alloc(), bytes.as_slice()) {
            Ok(image) => {
                let mut text = Vec::new(rt.alloc());
                push_shown(&image, &mut text)?;
                io::writer(&rt).write_all(text.as_slice())?;
            }
            Err(fault) => {
                println!(rt; "{fault}")?;
                return Ok(ExitCode::from(REFUSED));
            }
        }
    }
    Ok(ExitCode::SUCCESS)
}
