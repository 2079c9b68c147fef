//! Handing lines on, over standard input and a socket or a FIFO.
use crate::fault::Fault;
use crate::fifo::Fifo;
use crate::files::{bytes_of, newest_of};
use crate::showing::kind_of;
use std::io::{Read, Write};
use std::net::{OpenListener, OpenStream};
use std::os::fd::AsFd;
use wb_calibration::Filter;
use wb_calibration_file::Made;
use wb_connections::{Report, listen, stop_waiting};
use wb_converter::{Clients, RunEnd, run};
use wb_converter_command::{Receiver, Running};

/// Hands the load of each line on standard input to the client that is connected, or to who reads the FIFO, until the input ends.
pub(crate) fn serve(rt: &HostRuntime, running: &Running) -> Result<RunEnd, Fault> {
    let made = newest_of(bytes_of(rt, running.calibration.as_str())?.as_slice())?;
    agree(&made.filter, &running.filter)?;
    let report = Report::new(rt, running.is_verbose);
    report.line(format_args!("calibration {}, {}", made.number, made.digest.as_str()));
    report_filter(&report, &made.filter);
    match &running.receiver {
        Receiver::Client(address) => {
            let listener = listen(rt, address.as_str())?;
            hand_on(rt, &made, listener, &report)
        }
        Receiver::Fifo(path) => {
            let fifo = Fifo::at(rt, path.as_str())?;
            hand_on(rt, &made, fifo, &report)
        }
    }
}

/// Hands lines to who comes to this listener.
fn hand_on<L: OpenListener + Drop>(
    rt: &HostRuntime,
    made: &Made,
    listener: L,
    report: &Report<'_, HostRuntime>,
) -> Result<RunEnd, Fault>
where
    L::Stream: Read + Write + OpenStream,
{
    // the open file is set, which a second descriptor shares
    if rt
        .stdin()
        .as_fd()
        .try_clone_to_owned()
        .and_then(stop_waiting)
        .is_err()
    {
        return Err(Fault::Input);
    }
    let mut clients = Clients::new(listener);
    let mut input = rt.stdin();
    Ok(run(
        rt,
        &mut input,
        &made.calibration,
        made.filter,
        &mut clients,
        report,
    ))
}

fn report_filter(report: &Report<'_, HostRuntime>, filter: &Option<Filter>) {
    if let Some(filter) = filter {
        report.line(format_args!("filter {} {}", kind_of(*filter), filter.readings()));
    }
}

/// Whether a calibration has the filter that is wanted, if one is.
fn agree(has: &Option<Filter>, wanted: &Option<Filter>) -> Result<(), Fault> {
    if wanted.is_none() || has == wanted {
        return Ok(());
    }
    match has {
        Some(Filter::Median(readings)) => Err(Fault::Median(readings.number())),
        Some(Filter::Mean(readings)) => Err(Fault::Mean(readings.number())),
        None => Err(Fault::NoFilter),
    }
}
