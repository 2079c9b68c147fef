//! Values from outside, a file for each crate.
mod calibration;
mod calibration_file;
mod callers;
mod command_line;
mod converter;
mod converter_words;
mod instrument;
mod journal;
mod nets;
mod scale;
mod terminal;
mod window;

use std::fmt::{Debug, Write};
use std::process::Abort;
use std::test::Fail;

/// A text is the one that is wanted.
fn assert_text(rt: &impl Abort, shows: &str, text: &str, wanted: &str) {
    assert!(rt; text == wanted, "{shows}: {text}");
}

fn push(text: &str, answer: &mut String) -> Result<(), Fail> {
    Ok(answer.push_str(text)?)
}

fn note<T: Debug>(value: &T, answer: &mut String) -> Result<(), Fail> {
    Ok(write!(answer, "{value:?}")?)
}
