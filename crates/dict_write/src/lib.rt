// Entries of a DICT written: the Rust's dict_op and DictWriter (write.rs), measured first. An entry of the font is copied from where its
// operands stand. A walk over what is copied is one function: its sink counts or writes.
#![tactic(auto)]

pub mod sink;

ghost use Rattle.std.specs.Prelude.{◌≡◌, true, ◌+◌, ◌≤◌, ◌<◌, length};
ghost use Rattle.octets.specs.Out.{Writes};
ghost use Rattle.dict.specs.Op.{is_operator};
ghost use Rattle.dict.specs.Lookup.{last_of};
ghost use Rattle.dict.specs.Places.{entries_of, operands_at};
ghost use Rattle.dict.specs.Held.{entries};
ghost use Rattle.dict_write.specs.Written.{op_bytes_lem, operands_bytes, entry_bytes, offset_entry, private_entry, copied_entry, private_bytes};

use crate::sink::{Count, Sink};
use decimal::number_at;
use decimal_write::put_int5;
use dict::OperandsAt;
use dict::entries::Entries;
use dict::op::Op;
use dict::placed::Dict;
use octets::out::Out;

// How many bytes an operator takes: one, or two for an escape.
pub fn op_len(op: usize) -> usize
    ensures { result ≡ length (op_bytes_lem op) }
{
    if op < Op::ESCAPE {
        return 1;
    }
    2
}

// The operator. The number of an escape is that of its two bytes.
pub fn put_op(op: usize, out: &mut Out<'_>)
    requires { (is_operator op ≡ true) × (out.old.at + length (op_bytes_lem op) ≤ length out.old.bytes.now) }
    ensures { Writes out.old (op_bytes_lem op) out.new }
{
    out.num(op, op_len(op));
}

// The operands that stand from a position on, each in its shortest form.
fn operands<S: Sink>(d: &[u8], start: usize, count: usize, to: &mut S)
    requires { S.room to.old (operands_bytes (operands_at count d.now start)) }
    ensures { S.takes to.old (operands_bytes (operands_at count d.now start)) to.new }
{
    let mut at = start;
    for _ in 0..count {
        if d.len() <= at {
            return;
        }
        match number_at(d, at) {
            Ok(Some(number)) => {
                to.number(number.value);
                at = number.next;
            }
            Ok(None) => {
                return;
            }
            Err(_) => {
                return;
            }
        }
    }
}

// An entry whose operands stand from a position on.
fn entry<S: Sink>(d: &[u8], start: usize, count: usize, op: usize, to: &mut S)
    requires { S.allows op × S.room to.old (entry_bytes op (operands_at count d.now start)) }
    ensures { S.takes to.old (entry_bytes op (operands_at count d.now start)) to.new }
{
    operands(d, start, count, &mut *to);
    to.op(op);
}

// How many bytes an entry takes, of any operator, its operands standing from a position on.
pub fn entry_len(d: &[u8], start: usize, count: usize, op: usize) -> usize
    requires { length d.now ≤ 67108864 }
    ensures { (result ≡ length (entry_bytes op (operands_at count d.now start))) × (result ≤ 7000000000) }
{
    let mut sum = Count { len: 0 };
    entry(d, start, count, op, &mut sum);
    sum.len
}

// The entry, written.
pub fn put_entry(d: &[u8], start: usize, count: usize, op: usize, out: &mut Out<'_>)
    requires { (is_operator op ≡ true) × (out.old.at + length (entry_bytes op (operands_at count d.now start)) ≤ length out.old.bytes.now) }
    ensures { Writes out.old (entry_bytes op (operands_at count d.now start)) out.new }
{
    entry(d, start, count, op, out);
}

// How many bytes the last entry of an operator takes, 0 where there is none.
pub fn copied_len(d: &Dict<'_>, op: usize) -> usize
    requires { length d.now.bytes.now ≤ 67108864 }
    ensures { (result ≡ length (copied_entry op (last_of op (entries d.now)))) × (result ≤ 7000000000) }
{
    match d.place(op) {
        None => 0,
        Some(OperandsAt { start, count }) => entry_len(d.bytes, start, count, op),
    }
}

// The last entry of an operator, where there is one.
pub fn copied<S: Sink>(d: &Dict<'_>, op: usize, to: &mut S)
    requires { S.allows op × S.room to.old (copied_entry op (last_of op (entries d.now))) }
    ensures { S.takes to.old (copied_entry op (last_of op (entries d.now))) to.new }
{
    match d.place(op) {
        None => {}
        Some(OperandsAt { start, count }) => entry(d.bytes, start, count, op, to),
    }
}

// That entry, written.
pub fn put_copied(d: &Dict<'_>, op: usize, out: &mut Out<'_>)
    requires { (is_operator op ≡ true) × (out.old.at + length (copied_entry op (last_of op (entries d.now))) ≤ length out.old.bytes.now) }
    ensures { Writes out.old (copied_entry op (last_of op (entries d.now))) out.new }
{
    copied(d, op, out);
}

// An offset in the five-byte form and its operator.
pub fn put_offset_entry(op: usize, value: usize, out: &mut Out<'_>)
    requires { (is_operator op ≡ true) × (value < 2147483648) × (out.old.at + length (offset_entry op value) ≤ length out.old.bytes.now) }
    ensures { Writes out.old (offset_entry op value) out.new }
{
    put_int5(false, value, &mut *out);
    put_op(op, out);
}

// A Private entry, size and offset in the five-byte form.
pub fn put_private_entry(size: usize, offset: usize, out: &mut Out<'_>)
    requires { (size < 2147483648) × (offset < 2147483648) × (out.old.at + length (private_entry size offset) ≤ length out.old.bytes.now) }
    ensures { Writes out.old (private_entry size offset) out.new }
{
    put_int5(false, size, &mut *out);
    put_offset_entry(Op::PRIVATE, offset, out);
}

// A Private DICT without its Subrs, its other entries in order.
fn private<S: Sink>(d: &[u8], to: &mut S)
    requires { S.room to.old (private_bytes (entries_of d.now)) }
    ensures { S.takes to.old (private_bytes (entries_of d.now)) to.new }
{
    for read in Entries::new(d) {
        match read {
            Ok(read) => {
                if read.op != Op::SUBRS {
                    entry(d, read.start, read.count, read.op, &mut *to);
                }
            }
            Err(_) => return,
        }
    }
}

// How many bytes a Private DICT takes without its Subrs.
pub fn private_len(d: &[u8]) -> usize
    requires { length d.now ≤ 67108864 }
    ensures { result ≡ length (private_bytes (entries_of d.now)) }
{
    let mut sum = Count { len: 0 };
    private(d, &mut sum);
    sum.len
}

// The Private DICT without its Subrs, written.
pub fn put_private(d: &[u8], out: &mut Out<'_>)
    requires { out.old.at + length (private_bytes (entries_of d.now)) ≤ length out.old.bytes.now }
    ensures { Writes out.old (private_bytes (entries_of d.now)) out.new }
{
    private(d, out);
}
