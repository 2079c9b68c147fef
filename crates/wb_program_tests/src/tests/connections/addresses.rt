//! Addresses and converters that are taken and refused.
use std::net::{OpenListener, TcpStream};
use std::test::Fail;
use wb_sockets::{ConverterLink, listen, loopback};

static TAKEN: [&str; 3] = ["127.0.0.1:0", "127.1.2.3:80", "127.255.255.255:65535"];

static REFUSED: [&str; 12] = [
    "localhost:80",
    "10.0.0.1:80",
    "0.0.0.0:80",
    "128.0.0.1:80",
    "127.0.0.1",
    "127.0.0.1:",
    "127.0.0.1:65536",
    "127.0.0.1:80 ",
    "127.0.0:80",
    "[::1]:80",
    ":80",
    "",
];

static NOT_THERE: [&str; 8] = [
    "",
    "missing",
    ".",
    "/",
    "tcp:",
    "tcp:localhost:80",
    "tcp:127.0.0.1",
    "tcp:10.0.0.1:80",
];

#[test]
fn takes_addresses_of_this_machine_alone(rt: HostRuntime) {
    for text in &TAKEN {
        assert!(rt; loopback(text).is_some(), "{text}");
    }
    for text in &REFUSED {
        assert!(rt; loopback(text).is_none(), "{text}");
    }
}

/// Whether nothing can listen on the address of a text, which is told by its words.
fn has_no_listener(rt: &HostRuntime, text: &str) -> Result<bool, Fail> {
    match listen(rt, text) {
        Ok(_) => Ok(false),
        Err(fault) => Ok(fault.to_string(rt.alloc())?.as_str() == "address fault"),
    }
}

#[test]
fn listens_where_nobody_else_does(rt: HostRuntime) -> Result<(), Fail> {
    let listener = listen(&rt, "127.0.0.1:0")?;
    let address = listener.local_addr()?;
    let text = address.to_string(rt.alloc())?;
    assert!(rt; text.as_str().starts_with("127.0.0.1:"), "{text}");
    for text in [text.as_str(), "0.0.0.0:0"] {
        assert!(rt; has_no_listener(&rt, text)?, "{text}");
    }
    let is_accepted_early = listener.accept().is_ok();
    let _client = TcpStream::connect(&rt, address)?;
    assert_eq!(rt;
        (is_accepted_early, listener.accept().is_ok()),
        (false, true),
        "accepting doesn't wait"
    );
    Ok(())
}

/// Whether the converter of a text can't be opened, which is told by its words.
fn has_no_converter(rt: &HostRuntime, text: &str) -> Result<bool, Fail> {
    match ConverterLink::open(rt, text) {
        Ok(_) => Ok(false),
        Err(fault) => Ok(fault.to_string(rt.alloc())?.as_str() == "converter fault"),
    }
}

#[test]
fn refuses_a_converter_that_is_not_there(rt: HostRuntime) -> Result<(), Fail> {
    for text in &NOT_THERE {
        assert!(rt; has_no_converter(&rt, text)?, "{text}");
    }
    Ok(())
}
