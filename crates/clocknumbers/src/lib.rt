// The plain numbers of a slice's clock edge, of the 7 series.
#![tactic(auto)]

ghost use Rattle.std.specs.Prelude.{◌≡◌, ◌<◌};
ghost use Rattle.netlist.specs.Table.{code_of};
ghost use Rattle.series7.specs.Edge.{main_source, second_source, flop_source};
ghost use Rattle.clocknumbers.specs.Numbers.{reset_code, address_code, table_kind, data_code, edge_number, edge_numbers};
ghost use Rattle.clocknumbers.specs.Kinds.{kind_number, kind_numbered};

use slicefile::{
    BYPASS_PIN, CE_PIN, MAIN, MODE, MODE_D, PINS_D, SECOND, SET_RESET_USED, SET_RESET_VALUES,
    SHIFT_DATA, SR_PIN, WE_PIN,
};
use sources::{CARRY_SIGNAL, O5_SIGNAL, SUM_SIGNAL, Slice};

// The places of the numbers of a slice's edge: the sources of CE, SR and WE; of the write address D1-D6; of the data of the flip-flops; the
// set/reset values; the tables' kinds; the sources of their write data; the flip-flops in the byte, which no edge reads. And how many numbers
// these are.
pub const ENABLE: usize = 0;

pub const RESET: usize = 1;

pub const WRITE: usize = 2;

pub const ADDRESS: usize = 3;

pub const FLOPS: usize = 9;

pub const VALUES: usize = 17;

pub const KINDS: usize = 18;

pub const DATA: usize = 22;

pub const WIDTH: usize = 26;

pub const EDGE_LENGTH: usize = 27;

// A table's kind, in the order of the numbers that stand for it among those of an edge, from 0. The last takes its write data from the next letter.
#[derive(Clone, Copy, Debug, PartialEq, Eq)]
pub enum TableKind {
    Logic,
    Memory,
    Shift,
    ShiftFromNext,
}

impl From<TableKind> for u16 {
    ghost from_gives = { λ kind k. k ≡ kind_number kind };

    fn from(kind: TableKind) -> u16 {
        match kind {
            TableKind::Logic => 0,
            TableKind::Memory => 1,
            TableKind::Shift => 2,
            TableKind::ShiftFromNext => 3,
        }
    }
}

impl From<u16> for TableKind {
    ghost from_gives = { λ k kind. kind ≡ kind_numbered k };

    fn from(number: u16) -> TableKind {
        match number {
            0 => TableKind::Logic,
            1 => TableKind::Memory,
            2 => TableKind::Shift,
            _ => TableKind::ShiftFromNext,
        }
    }
}

// The set/reset pin, where it is used.
#[tactic(auto, unfolding(crate::specs::Numbers::reset_code))]
fn reset_code(slice: &Slice) -> u16
    ensures { result ≡ reset_code slice.now.n slice.now.m slice.now.body.now }
{
    if slice.body[SET_RESET_USED] == 1 {
        slice.pin_number(SR_PIN)
    } else {
        0
    }
}

// Pin i of D's table, where D is in memory mode.
#[tactic(auto, unfolding(crate::specs::Numbers::address_code))]
fn address_code(slice: &Slice, i: usize) -> u16
    requires { i < 6 }
    ensures { result ≡ address_code slice.now.n slice.now.m slice.now.body.now i }
{
    if slice.body[MODE_D] == 1 {
        slice.pin_number(PINS_D + i)
    } else {
        0
    }
}

// What the main flip-flop of a letter takes.
#[tactic(auto, unfolding(netlist::specs::Table::code_of, series7::specs::Edge::main_source))]
fn main_code(slice: &Slice, l: usize) -> u16
    requires { (slice.now.s < slice.now.n) × (l < 4) }
    ensures { result ≡ code_of slice.now.n (main_source slice.now.n slice.now.m slice.now.s slice.now.body.now l) }
{
    match slice.body[MAIN + l] {
        0 => slice.own_number(l),
        1 => slice.own_number(O5_SIGNAL + l),
        2 => slice.own_number(SUM_SIGNAL + l),
        3 => slice.own_number(CARRY_SIGNAL + l),
        4 => slice.own_number(sources::wide_signal(l)),
        5 => slice.pin_number(BYPASS_PIN + l),
        _ => 0,
    }
}

// What the second flip-flop of a letter takes.
#[tactic(auto, unfolding(netlist::specs::Table::code_of, series7::specs::Edge::second_source))]
fn second_code(slice: &Slice, l: usize) -> u16
    requires { (slice.now.s < slice.now.n) × (l < 4) }
    ensures { result ≡ code_of slice.now.n (second_source slice.now.n slice.now.m slice.now.s slice.now.body.now l) }
{
    if slice.body[SECOND + l] == 0 {
        slice.own_number(O5_SIGNAL + l)
    } else {
        slice.pin_number(BYPASS_PIN + l)
    }
}

// What bit b of the flip-flop byte takes.
fn flop_code(slice: &Slice, b: usize) -> u16
    requires { (slice.now.s < slice.now.n) × (b < 8) }
    ensures { result ≡ code_of slice.now.n (flop_source slice.now.n slice.now.m slice.now.s slice.now.body.now b) }
{
    if b < 4 {
        main_code(slice, b)
    } else {
        second_code(slice, b - 4)
    }
}

// A table's kind.
#[tactic(auto, unfolding(crate::specs::Numbers::kind_of))]
fn table_kind(slice: &Slice, l: usize) -> TableKind
    requires { l < 4 }
    ensures { kind_number result ≡ table_kind slice.now.body.now l }
{
    match slice.body[MODE + l] {
        0 => TableKind::Logic,
        1 => TableKind::Memory,
        _ if slice.body[SHIFT_DATA + l] == 1 => TableKind::ShiftFromNext,
        _ => TableKind::Shift,
    }
}

// A letter's bypass pin, where its table writes it.
#[tactic(auto, unfolding(crate::specs::Numbers::write_code))]
fn data_code(slice: &Slice, l: usize) -> u16
    requires { l < 4 }
    ensures { result ≡ data_code slice.now.n slice.now.m slice.now.body.now l }
{
    match table_kind(slice, l) {
        TableKind::Logic | TableKind::ShiftFromNext => 0,
        TableKind::Memory | TableKind::Shift => slice.pin_number(BYPASS_PIN + l),
    }
}

// Number k of a slice's edge.
#[tactic(auto, unfolding(crate::specs::Numbers::edge_number))]
fn edge_number(slice: &Slice, k: usize) -> u16
    requires { slice.now.s < slice.now.n }
    ensures { result ≡ edge_number slice.now.n slice.now.m slice.now.s slice.now.body.now k }
{
    match k {
        ENABLE => slice.pin_number(CE_PIN),
        RESET => reset_code(slice),
        WRITE => slice.pin_number(WE_PIN),
        ADDRESS..FLOPS => address_code(slice, k - ADDRESS),
        FLOPS..VALUES => flop_code(slice, k - FLOPS),
        VALUES => u16::from(slice.body[SET_RESET_VALUES]),
        KINDS..DATA => u16::from(table_kind(slice, k - KINDS)),
        DATA..WIDTH => data_code(slice, k - DATA),
        _ => 8,
    }
}

// The numbers of a slice's edge.
#[tactic(auto, using(slicefile::proofs::Tabulate::tabulated), unfolding(crate::specs::Numbers::edge_numbers))]
pub fn edge_of(slice: &Slice) -> [u16; EDGE_LENGTH]
    requires { slice.now.s < slice.now.n }
    ensures { result ≡ edge_numbers slice.now.n slice.now.m slice.now.s slice.now.body.now }
{
    let mut edge = [0u16; EDGE_LENGTH];
    for (k, number) in edge.iter_mut().enumerate() {
        *number = edge_number(slice, k);
    }
    edge
}
