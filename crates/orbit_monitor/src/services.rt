//! The services for which a program asks by TRAP.

ghost use Rattle.std.specs.Prelude.{◌≡◌, ◌+◌, ◌≤◌, length, slice_index, option_map, IfOk, OnOk, OnErr};
ghost use Rattle.t_ports.specs.Causes.{HasCause};
ghost use Rattle.word_faces.specs.Operands.{fault_of, text_at, string_at, string_of};
ghost use Rattle.machine_services.specs.Services.{Served, Puts, halt, put_character, put_fixnum, raise_fault, report_full, put_string, service, reader_of, serve};
ghost use Rattle.orbit_monitor.specs.Answering.{pieces_served};
ghost use Rattle.orbit_monitor.specs.Turn.{outcome_of, put_of, FailsIn, OutcomeIsNamed};

use crate::faces::{character, count, data, face, fixnum, word_in};
use itoa::Buffer;
use m68020_step::Machine;
use machine_services::Exit;
use t_base::{Fault, Names};
use t_ports::ports::{Failed, Sink};

/// What a service comes to.
#[derive(Clone, Copy, Debug, PartialEq, Eq)]
pub enum Outcome {
    /// It put some bytes, of which this is the last, and the program goes on.
    Put(Option<u8>),
    /// The program ends.
    Exit(Exit),
    /// An operand is not of its kind.
    Bad,
}

fn put<S: Sink>(bytes: &[u8], out: &mut S) -> Result<Outcome, Failed>
    ensures outcome { IfOk result (λ o. o ≡ outcome_of (Puts bytes.now)) }
    ensures took { OnOk result (S.took out.old bytes.now out.new) }
    ensures part { OnErr result (FailsIn S.took (Puts bytes.now) out.old out.new) }
    ensures pieces { S.pieces out.new ≤ S.pieces out.old + pieces_served (Puts bytes.now) }
    ensures cause { HasCause (S.faults out.old) (S.faults out.new) result }
{
    out.put(bytes)?;
    Ok(Outcome::Put(bytes.last().copied()))
}

fn halt(machine: &Machine, names: &Names) -> Outcome
    ensures exact { result ≡ outcome_of (halt (reader_of machine.now.storage) names.now (slice_index machine.now.registers.d 0)) }
    ensures named { OutcomeIsNamed names.now result }
{
    match face(machine, names, machine.d(0)) {
        Some(face) => Outcome::Exit(Exit::Done(face)),
        None => Outcome::Bad,
    }
}

fn put_character<S: Sink>(word: u32, out: &mut S) -> Result<Outcome, Failed>
    ensures outcome { IfOk result (λ o. o ≡ outcome_of (put_character word)) }
    ensures took { OnOk result (S.took out.old (put_of (put_character word)) out.new) }
    ensures part { OnErr result (FailsIn S.took (put_character word) out.old out.new) }
    ensures pieces { S.pieces out.new ≤ S.pieces out.old + pieces_served (put_character word) }
    ensures cause { HasCause (S.faults out.old) (S.faults out.new) result }
{
    match character(word) {
        Some(code) => put(&[code], out),
        None => Ok(Outcome::Bad),
    }
}

fn put_fixnum<S: Sink>(word: u32, out: &mut S) -> Result<Outcome, Failed>
    ensures outcome { IfOk result (λ o. o ≡ outcome_of (put_fixnum word)) }
    ensures took { OnOk result (S.took out.old (put_of (put_fixnum word)) out.new) }
    ensures part { OnErr result (FailsIn S.took (put_fixnum word) out.old out.new) }
    ensures pieces { S.pieces out.new ≤ S.pieces out.old + pieces_served (put_fixnum word) }
    ensures cause { HasCause (S.faults out.old) (S.faults out.new) result }
{
    match fixnum(word) {
        Some(number) => {
            let mut buffer = Buffer::new();
            put(buffer.format(number).as_bytes(), out)
        }
        None => Ok(Outcome::Bad),
    }
}

/// The fault with a number. An error of the program has an operand.
fn fault(number: u32, operand: u32) -> Option<Fault>
    ensures { result ≡ fault_of number operand }
{
    match number {
        1 => Some(Fault::NotProcedure),
        2 => Some(Fault::WrongCount),
        3 => Some(Fault::NotFixnum),
        4 => Some(Fault::NotPair),
        5 => Some(Fault::NotVector),
        6 => Some(Fault::IndexRange),
        7 => Some(Fault::FixnumOverflow),
        8 => Some(Fault::DivideByZero),
        9 => Some(Fault::Unbound),
        10 => Some(Fault::DeadEscape),
        11 => Some(Fault::NotHandled),
        12 => Some(Fault::NotChar),
        13 => Some(Fault::NotString),
        14 => Some(Fault::CharRange),
        15 => match fixnum(operand) {
            Some(number) => Some(Fault::User(number)),
            None => None,
        },
        16 => Some(Fault::NotSymbol),
        _ => None,
    }
}

fn raise_fault(machine: &Machine) -> Outcome
    ensures { result ≡ outcome_of (raise_fault (slice_index machine.now.registers.d 0) (slice_index machine.now.registers.d 1)) }
{
    match fault(machine.d(0), machine.d(1)) {
        Some(fault) => Outcome::Exit(Exit::Fault(fault)),
        None => Outcome::Bad,
    }
}

fn report_full(machine: &Machine) -> Outcome
    ensures { result ≡ outcome_of (report_full (slice_index machine.now.registers.d 0) (slice_index machine.now.registers.d 1) (slice_index machine.now.registers.d 2)) }
{
    let which = machine.d(2);
    if which > 1 {
        return Outcome::Bad;
    }
    Outcome::Exit(Exit::Full {
        stack: which == 1,
        asked: machine.d(0),
        left: machine.d(1),
    })
}

/// The bytes of the string at an address.
fn string_at(machine: &Machine, at: u32) -> Option<&[u8]>
    ensures { option_map (λ x. x.now) result ≡ string_at (reader_of machine.now.storage) at }
{
    let head = data(machine, at, 8)?;
    if word_in(head, 0) != 0x15 {
        return None;
    }
    let length = count(word_in(head, 4))?;
    let bytes = data(machine, at, 8 + length)?;
    Some(&bytes[8..])
}

fn string(machine: &Machine, word: u32) -> Option<&[u8]>
    ensures { option_map (λ x. x.now) result ≡ string_of (reader_of machine.now.storage) word }
{
    if word % 4 == 2 {
        string_at(machine, word - 2)
    } else {
        None
    }
}

fn put_string<S: Sink>(machine: &Machine, out: &mut S) -> Result<Outcome, Failed>
    ensures outcome { IfOk result (λ o. o ≡ outcome_of (put_string (reader_of machine.now.storage) (slice_index machine.now.registers.d 0))) }
    ensures took { OnOk result (S.took out.old (put_of (put_string (reader_of machine.now.storage) (slice_index machine.now.registers.d 0))) out.new) }
    ensures part { OnErr result (FailsIn S.took (put_string (reader_of machine.now.storage) (slice_index machine.now.registers.d 0)) out.old out.new) }
    ensures pieces { S.pieces out.new ≤ S.pieces out.old + pieces_served (put_string (reader_of machine.now.storage) (slice_index machine.now.registers.d 0)) }
    ensures cause { HasCause (S.faults out.old) (S.faults out.new) result }
{
    match string(machine, machine.d(0)) {
        Some(bytes) => put(bytes, out),
        None => Ok(Outcome::Bad),
    }
}

/// Does the service of a TRAP.
pub fn serve<S: Sink>(
    machine: &Machine,
    names: &Names,
    vector: u8,
    out: &mut S,
) -> Result<Outcome, Failed>
    ensures outcome { IfOk result (λ o. o ≡ outcome_of (serve names.now machine.now vector)) }
    ensures took { OnOk result (S.took out.old (put_of (serve names.now machine.now vector)) out.new) }
    ensures part { OnErr result (FailsIn S.took (serve names.now machine.now vector) out.old out.new) }
    ensures pieces { S.pieces out.new ≤ S.pieces out.old + pieces_served (serve names.now machine.now vector) }
    ensures named { IfOk result (OutcomeIsNamed names.now) }
    ensures cause { HasCause (S.faults out.old) (S.faults out.new) result }
{
    match vector {
        0 => Ok(halt(machine, names)),
        1 => put_character(machine.d(0), out),
        2 => put_fixnum(machine.d(0), out),
        3 => Ok(raise_fault(machine)),
        4 => Ok(report_full(machine)),
        5 => put_string(machine, out),
        _ => Ok(Outcome::Bad),
    }
}
