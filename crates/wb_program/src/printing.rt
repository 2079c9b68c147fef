//! The printed form of what is put out.
ghost use Rattle.std.specs.Io.KnownBytes.{Appends};
ghost use Rattle.std.specs.Prelude.{◌≡◌, OnOk, codes};
ghost use Rattle.std.specs.Str.Lines.{lines};
ghost use Rattle.wb_program.specs.PrintedOutputs.{body_lines, printed_body_line, printed_lines, printed_out, printed_replies, printed_reply, printed_response, status_of};
ghost use Rattle.wb_station.specs.OutputShows.{out_shown};

use std::io::Write;
use thiserror::Error;
use wb_sics::{Replies, Reply};
use wb_station::Output;
use wb_trace::{first_line, split_word};

/// The writer failed. A reading at which nothing waits hands on this result, so it is small.
#[derive(Clone, Copy, Debug, PartialEq, Eq, Error)]
#[error("write fault")]
pub(crate) struct WriteFault;

/// Prints what a station put out.
pub(crate) fn print_output<O: Write>(output: Output<'_>, writer: &mut O) -> Result<(), WriteFault>
    ensures { OnOk result (Appends
        (O.contents writer.old) (O.contents writer.new) (printed_out (out_shown output.entry))) }
{
    match output {
        Output::Replies(replies) => print_replies(replies, writer),
        Output::Response(response) => print_response(response, writer),
        Output::Nothing => Ok(()),
    }
}

pub(crate) fn print_replies<O: Write>(replies: &Replies, writer: &mut O) -> Result<(), WriteFault>
    ensures { OnOk result (Appends
        (O.contents writer.old) (O.contents writer.new) (printed_replies replies.now.items)) }
{
    for reply in replies.as_slice() {
        print_reply(reply, writer)?;
    }
    Ok(())
}

fn print_reply<O: Write>(reply: &Reply, writer: &mut O) -> Result<(), WriteFault>
    ensures { OnOk result (Appends
        (O.contents writer.old) (O.contents writer.new) (printed_reply reply.now)) }
{
    write_bytes(b"t ", writer)?;
    write_bytes(reply.text().as_str().as_bytes(), writer)?;
    end_line(writer)
}

/// Prints the status of a response, and the lines of its body.
fn print_response<O: Write>(response: &[u8], writer: &mut O) -> Result<(), WriteFault>
    ensures { OnOk result (Appends
        (O.contents writer.old) (O.contents writer.new) (printed_response response.now)) }
{
    write_bytes(b"o ", writer)?;
    write_bytes(status(response), writer)?;
    end_line(writer)?;
    print_lines(body(response), writer)
}

/// The second word of a response.
fn status(response: &[u8]) -> &[u8]
    ensures { result.now ≡ status_of response.now }
{
    split_word(split_word(response).1).0
}

/// What stands after the first empty line.
fn body(response: &[u8]) -> &[u8]
    ensures { lines result.now ≡ body_lines response.now }
{
    let mut rest = response;
    while let Some((line, after)) = first_line(rest) {
        rest = after;
        if line.is_empty() {
            break;
        }
    }
    rest
}

/// Prints each line after `| `.
fn print_lines<O: Write>(text: &[u8], writer: &mut O) -> Result<(), WriteFault>
    ensures { OnOk result (Appends
        (O.contents writer.old) (O.contents writer.new) (printed_lines (lines text.now))) }
{
    let mut rest = text;
    while let Some((line, after)) = first_line(rest) {
        print_line(line, writer)?;
        rest = after;
    }
    Ok(())
}

fn print_line<O: Write>(line: &[u8], writer: &mut O) -> Result<(), WriteFault>
    ensures { OnOk result (Appends
        (O.contents writer.old) (O.contents writer.new) (printed_body_line line.now)) }
{
    write_bytes(b"| ", writer)?;
    write_bytes(line, writer)?;
    end_line(writer)
}

fn end_line<O: Write>(writer: &mut O) -> Result<(), WriteFault>
    ensures { OnOk result (Appends (O.contents writer.old) (O.contents writer.new) (codes "\n")) }
{
    write_bytes(b"\n", writer)
}

pub(crate) fn write_bytes<O: Write>(bytes: &[u8], writer: &mut O) -> Result<(), WriteFault>
    ensures { OnOk result (Appends
        (O.contents writer.old) (O.contents writer.new) bytes.now) }
{
    match writer.write_all(bytes) {
        Ok(()) => Ok(()),
        Err(_) => Err(WriteFault),
    }
}
