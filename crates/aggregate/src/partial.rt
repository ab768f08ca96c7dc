// Partial values, combined one by one.
ghost use Rattle.std.specs.Prelude.{◌≡◌, ◌++◌, ◌+◌, ◌*◌, ◌<◌, ◌≤◌, ◌↔◌, length, None, pos, IsTrue, OnErr, OnOk};
ghost use Rattle.aggregate.specs.declared.agg_list.Agg.TheVariants.{Sum};
ghost use Rattle.aggregate.specs.Partial.{adds, combined, finished_of, joined_bytes, joined_number, number, number_bytes, partial_at, partial_of, slot_bytes};
ghost use Rattle.aggregate.specs.declared.kind.Kind.TheVariants.{Group};
ghost use Rattle.aggregate.specs.PartialLaws.{IsAssociative, PartialsAreJoined, PartialsAreLong, PartialsComeBack, SumsAreExact};
ghost use Rattle.aggregate.specs.Values.{ArePartials, IsPartial, IsValueOf, Suits, ValuesStayFormed, are_partials, width};

use crate::agg_list::{Agg, AggList};
use byteorder::{BigEndian, ByteOrder};
use std::alloc::AllocError;

// The bytes of one partial value.
const SLOT: usize = 17;

/// What is told of a partial value.
#[derive(Clone, Copy, Debug, PartialEq, Eq)]
pub enum Finished {
    /// Every field was missing.
    Missing,
    /// This number.
    Number(i64),
    /// A number that leaves the range of `i64`.
    Wide,
}

/// Appends the 17 bytes of one partial value: 1 and the number in two's complement with the greatest byte first, or
/// zeros where there is none. An `Err` changes nothing.
pub fn put_partial(into: &mut Vec<u8>, number: Option<i128>) -> Result<(), AllocError>
    ensures ok { OnOk result (into.new.items ≡ into.old.items ++ partial_of number) }
    ensures length { OnOk result (length into.new.items ≡ length into.old.items + 17) }
    ensures err { OnErr result (into.new.items ≡ into.old.items) }
{
    match number {
        Some(number) => {
            let mut bytes = [1; SLOT];
            write_number(&mut bytes[1..SLOT], number);
            into.extend_from_slice(&bytes)
        }
        None => into.extend_from_slice(&[0; SLOT]),
    }
}

/// Combines a value into another. What is added wraps in 128 bits, so nothing is refused.
#[inline(always)]
pub fn combine(aggs: &AggList, into: &mut [u8], from: &[u8])
    requires into { IsValueOf (Group aggs.now) into.old }
    requires from { IsValueOf (Group aggs.now) from.now }
    ensures { into.new ≡ combined aggs.now into.old from.now }
{
    combine_slots(aggs, into, from);
}

// The same over values whose lengths are known.
#[inline(always)]
fn combine_slots(aggs: &AggList, into: &mut [u8], from: &[u8])
    requires into { ArePartials aggs.now into.old }
    requires from { ArePartials aggs.now from.now }
    requires long { length into.old ≡ width aggs.now }
    requires alike { length from.now ≡ width aggs.now }
    ensures { into.new ≡ combined aggs.now into.old from.now }
{
    // A count and a sum, and a count alone, are what most queries ask for.
    if aggs.has_two_sums() {
        add_bytes(&mut into[..SLOT], &from[..SLOT]);
        add_bytes(&mut into[SLOT..2 * SLOT], &from[SLOT..2 * SLOT]);
        return;
    }
    match aggs.items() {
        [only] => join_bytes(*only, into, from),
        list => combine_each(list, into, from),
    }
}

// Combines a value into another, aggregate by aggregate.
#[inline(never)]
fn combine_each(aggs: &[Agg], into: &mut [u8], from: &[u8])
    requires into { ArePartials aggs.now into.old }
    requires from { ArePartials aggs.now from.now }
    requires long { length into.old ≡ width aggs.now }
    requires alike { length from.now ≡ width aggs.now }
    requires few { length aggs.now ≤ 8 }
    ensures { into.new ≡ combined aggs.now into.old from.now }
{
    for (i, agg) in aggs.iter().enumerate() {
        let at = SLOT * i;
        join_bytes(*agg, &mut into[at..at + SLOT], &from[at..at + SLOT]);
    }
}

// Joins the partial value of one aggregate into another.
#[inline(always)]
fn join_bytes(agg: Agg, into: &mut [u8], from: &[u8])
    requires into { IsPartial agg into.old }
    requires from { IsPartial agg from.now }
    requires long { length into.old ≡ 17 }
    requires alike { length from.now ≡ 17 }
    ensures { into.new ≡ joined_bytes agg into.old from.now }
{
    match agg {
        Agg::Count | Agg::Sum => add_bytes(into, from),
        Agg::Min | Agg::Max => pick_bytes(agg, into, from),
    }
}

// The same of one that adds. A missing value has the number 0, so no byte is looked at: what is there is added, and is
// there where one of the two was.
#[inline(always)]
fn add_bytes(into: &mut [u8], from: &[u8])
    requires into { IsPartial Sum into.old }
    requires from { IsPartial Sum from.now }
    requires long { length into.old ≡ 17 }
    requires alike { length from.now ≡ 17 }
    ensures { into.new ≡ joined_bytes Sum into.old from.now }
{
    let sum = join(
        Agg::Sum,
        read_number(&into[1..SLOT]),
        read_number(&from[1..SLOT]),
    );
    into[0] = into[0].max(from[0]);
    write_number(&mut into[1..SLOT], sum);
}

// The same of one that takes the lesser or the greater.
fn pick_bytes(agg: Agg, into: &mut [u8], from: &[u8])
    requires into { IsPartial Sum into.old }
    requires from { IsPartial Sum from.now }
    requires long { length into.old ≡ 17 }
    requires alike { length from.now ≡ 17 }
    ensures { into.new ≡ joined_bytes agg into.old from.now }
{
    if from[0] == 0 {
        return;
    }
    if into[0] == 0 {
        into.copy_from_slice(from);
        return;
    }
    let joint = join(
        agg,
        read_number(&into[1..SLOT]),
        read_number(&from[1..SLOT]),
    );
    write_number(&mut into[1..SLOT], joint);
}

fn join(agg: Agg, a: i128, b: i128) -> i128
    ensures { result ≡ joined_number agg a b }
{
    match agg {
        Agg::Count | Agg::Sum => a.wrapping_add(b),
        Agg::Min => a.min(b),
        Agg::Max => a.max(b),
    }
}

fn read_number(bytes: &[u8]) -> i128
    requires { length bytes.now ≡ 16 }
    ensures { result ≡ number bytes.now }
{
    let high = u128::from(BigEndian::read_u64(&bytes[..8]));
    let low = u128::from(BigEndian::read_u64(&bytes[8..16]));
    (high * (1 << 64) + low).cast_signed()
}

fn write_number(into: &mut [u8], n: i128)
    requires { length into.old ≡ 16 }
    ensures { into.new ≡ number_bytes n }
{
    // Two halves, since a number of 128 bits is written byte by byte.
    let bits = n.cast_unsigned();
    BigEndian::write_u64(&mut into[..8], (bits >> 64) as u64);
    BigEndian::write_u64(&mut into[8..16], (bits % (1 << 64)) as u64);
}

// Whether the bytes are a value with these aggregates.
pub(crate) fn are_partials(aggs: &AggList, value: &[u8]) -> bool
    ensures { result ≡ are_partials aggs.now value.now }
{
    let list = aggs.items();
    if value.len() != SLOT * list.len() {
        return false;
    }
    for (i, agg) in list.iter().enumerate() {
        let at = SLOT * i;
        if !is_partial(*agg, &value[at..at + SLOT]) {
            return false;
        }
    }
    true
}

// Whether 17 bytes are a partial value of this aggregate.
#[inline(always)]
fn is_partial(agg: Agg, bytes: &[u8]) -> bool
    requires { length bytes.now ≡ 17 }
    ensures { IsTrue result ↔ IsPartial agg bytes.now }
{
    match bytes[0] {
        0 => may_miss(agg) && is_zero(&bytes[1..SLOT]),
        1 => true,
        _ => false,
    }
}

// Whether an aggregate may be missing.
fn may_miss(agg: Agg) -> bool
    ensures { IsTrue result ↔ Suits agg None }
{
    match agg {
        Agg::Count => false,
        Agg::Sum | Agg::Min | Agg::Max => true,
    }
}

// Whether 16 bytes are the number 0.
fn is_zero(bytes: &[u8]) -> bool
    requires { length bytes.now ≡ 16 }
    ensures { IsTrue result ↔ (number bytes.now ≡ pos 0) }
{
    read_number(bytes) == 0
}

/// What is told of the aggregate at a place, from 0.
#[tactic(auto, using(crate::proofs::Tested::length_value))]
pub fn finish(aggs: &AggList, value: &[u8], place: usize) -> Finished
    requires value { IsValueOf (Group aggs.now) value.now }
    requires place { place < length aggs.now }
    ensures { result ≡ finished_of (partial_at place value.now) }
{
    let _ = aggs;
    let at = SLOT * place;
    if value[at] == 0 {
        return Finished::Missing;
    }
    match i64::try_from(read_number(&value[at + 1..at + SLOT])) {
        Ok(number) => Finished::Number(number),
        Err(_) => Finished::Wide,
    }
}

/// Values may be combined in any grouping, so partial values of parts of the rows may meet in any order
/// of merges.
pub fn combine_is_associative()
    ensures { IsAssociative }
{}

/// What a value becomes by combining is a value again.
pub fn combined_values_stay_formed()
    ensures { ValuesStayFormed }
{}

/// At each place stands what the aggregate of this place makes of the two partial values there.
pub fn partials_are_joined()
    ensures { PartialsAreJoined }
{}

/// A count or a sum that stays within 128 bits is exact.
pub fn sums_are_exact()
    ensures { SumsAreExact }
{}

/// Each partial value that is put takes 17 bytes.
pub fn partials_are_long()
    ensures { PartialsAreLong }
{}

/// A partial value that was put is read back, whatever stands before and behind it.
pub fn partials_come_back()
    ensures { PartialsComeBack }
{}
