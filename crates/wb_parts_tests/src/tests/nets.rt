//! Partners by place, and the net of a ticket as a number.
use super::journal::{Ask, FIRST, Plain, Row, SECOND, SINGLE, VOID, rows};
use std::test::Fail;
use wb_fixtures::LATER;

const FOURTH_SINGLE: Plain = Plain {
    number: 4,
    key: "K4",
    ..SINGLE
};

const SIXTH: Plain = Plain {
    number: 6,
    key: "K6",
    ..SECOND
};

const SEVENTH_VOID: Plain = Plain {
    number: 7,
    key: "K7",
    moment: LATER,
    ..VOID
};

static PARTNERS: [Row; 5] = [
    Row(
        "a First",
        &[FIRST, FOURTH_SINGLE, SIXTH, SEVENTH_VOID],
        Ask::PartnerAt(0),
        "None",
    ),
    Row(
        "a Single",
        &[FIRST, FOURTH_SINGLE, SIXTH, SEVENTH_VOID],
        Ask::PartnerAt(1),
        "None",
    ),
    Row(
        "a Second",
        &[FIRST, FOURTH_SINGLE, SIXTH, SEVENTH_VOID],
        Ask::PartnerAt(2),
        "Some(1)",
    ),
    Row(
        "a Void of a closed plate",
        &[FIRST, FOURTH_SINGLE, SIXTH, SEVENTH_VOID],
        Ask::PartnerAt(3),
        "None",
    ),
    Row(
        "a place behind the last",
        &[FIRST, FOURTH_SINGLE, SIXTH, SEVENTH_VOID],
        Ask::PartnerAt(4),
        "None",
    ),
];

const LATER_SINGLE: Plain = Plain {
    number: 3,
    key: "K3",
    moment: LATER,
    ..SINGLE
};

const LATER_VOID: Plain = Plain {
    number: 4,
    key: "K4",
    moment: LATER,
    ..VOID
};

static NETS: [Row; 5] = [
    Row(
        "a Second against its First",
        &[SECOND, FIRST],
        Ask::Net,
        "Some(10200)",
    ),
    Row(
        "a First against its Second",
        &[FIRST, SECOND],
        Ask::Net,
        "Some(10200)",
    ),
    Row(
        "a Single over its preset tare",
        &[LATER_SINGLE],
        Ask::Net,
        "Some(13340)",
    ),
    Row("a Second alone", &[SECOND], Ask::Net, "None"),
    Row(
        "a Void against a First",
        &[LATER_VOID, FIRST],
        Ask::Net,
        "None",
    ),
];

#[test]
fn finds_the_partner_at_each_place(rt: HostRuntime) -> Result<(), Fail> {
    rows(&rt, rt.alloc(), &PARTNERS)
}

#[test]
fn weighs_the_net_of_a_pair_and_over_a_preset(rt: HostRuntime) -> Result<(), Fail> {
    rows(&rt, rt.alloc(), &NETS)
}
