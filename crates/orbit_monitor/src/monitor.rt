//! A program in the machine, and its run.

ghost use Rattle.std.specs.Prelude.{◌≡◌, ◌+◌, ◌<◌, ◌≤◌, length, None, Some, slice_get, IfOk, OnOk, OnErr, IfSome};
ghost use Rattle.t_ports.specs.Causes.{HasCause, Rose};
ghost use Rattle.machine_services.specs.declared.exit.Exit.{Exit};
ghost use Rattle.machine_services.specs.Runs.{act};
ghost use Rattle.orbit_monitor.specs.Answering.{run_on, pieces_next, pieces_within, after, exit_of, IsNamed, AnswerIsNamed, IfSink, IfRan, FailsAtPut};
ghost use Rattle.orbit_monitor.specs.Turn.{OutcomeIsNamed, settled, FailsInTurn};

use crate::end::End;
use crate::services::{Outcome, serve};
use m68020_step::{Machine, Step, Why};
use machine_services::Exit;
use std::marker::Model;
use t_base::{Name, Names};
use t_ports::ports::{Failed, Sink};

/// A program in the machine, with the names of its image: what `boot` makes and `run` carries on.
#[derive(Drop)]
pub struct Boot {
    pub(crate) names: Names,
    pub(crate) machine: Machine,
    pub(crate) end: Option<Exit>,
    pub(crate) last: Option<u8>,
}

impl Model for Boot {
    ghost use Rattle.std.specs.Prelude.{None, Some, MatchOption};
    ghost use Rattle.orbit_monitor.specs.Answering.{Loaded, EndIsNamed};

    ghost Value = { Loaded };

    ghost view = { λ b. record { names = b.names; state = b.machine; end = b.end; last = b.last } };

    ghost invariant = { λ b. EndIsNamed b.names b.end };
}

impl Boot {
    /// The text of a name of the image, as the face of a symbol has one.
    pub fn name_of(&self, n: Name) -> &[u8]
        requires { n.0 < length self.now.names }
        ensures { slice_get self.now.names n.0 ≡ Some result.now }
    {
        self.names.text(n)
    }

    /// The last byte of what services have put with Ok since `boot`, and None where there is no such byte.
    pub fn last_byte(&self) -> Option<u8>
        ensures { result ≡ self.now.last }
    {
        self.last
    }

    /// Notes the outcome of a TRAP at an address.
    fn settle(&mut self, outcome: Outcome, at: u32)
        requires { OutcomeIsNamed self.old.names outcome }
        ensures { self.new ≡ settled self.old outcome at }
    {
        match outcome {
            Outcome::Put(None) => {}
            Outcome::Put(Some(byte)) => self.last = Some(byte),
            Outcome::Exit(exit) => self.end = Some(exit),
            Outcome::Bad => {
                self.end = Some(Exit::Stop {
                    why: Why::BadService,
                    at,
                });
            }
        }
    }
}

/// One instruction, with its service.
fn turn<S: Sink>(boot: &mut Boot, out: &mut S) -> Result<Option<Exit>, Failed>
    requires { boot.old.end ≡ None }
    ensures loaded { OnOk result (boot.new ≡ after boot.old (act boot.old.names boot.old.state)) }
    ensures end { IfOk result (λ e. e ≡ (act boot.old.names boot.old.state).end) }
    ensures took { OnOk result (S.took out.old (act boot.old.names boot.old.state).output out.new) }
    ensures named { IfOk result (λ e. IfSome e (IsNamed boot.old.names)) }
    ensures part { OnErr result (FailsInTurn S.took boot.old boot.new out.old out.new) }
    ensures pieces { S.pieces out.new ≤ S.pieces out.old + pieces_next boot.old.names boot.old.state None }
    ensures cause { HasCause (S.faults out.old) (S.faults out.new) result }
{
    let at = boot.machine.pc();
    match boot.machine.step() {
        Step::On => Ok(None),
        Step::Stop(why) => {
            boot.end = Some(Exit::Stop { why, at });
            Ok(boot.end)
        }
        Step::Service(vector) => {
            let outcome = serve(&boot.machine, &boot.names, vector, out)?;
            boot.settle(outcome, at);
            Ok(boot.end)
        }
    }
}

/// Runs at most so many instructions, a TRAP with its service being one. It takes no memory, and the sink gets the bytes of each
/// service as it is met. After `Steps` a second run goes on. After `Sink` it goes on behind the service whose put failed, and
/// that service puts nothing again. After every other end it answers that end again, and puts nothing.
pub fn run<S: Sink>(boot: &mut Boot, steps: u64, out: &mut S) -> End
    // An answer other than Sink says how the run ended within so many instructions, and Steps that it did not.
    ensures end { IfRan result ((run_on boot.old steps).end ≡ exit_of result) }
    // Then the sink took exactly what these put.
    ensures took { IfRan result (S.took out.old (run_on boot.old steps).output out.new) }
    ensures loaded { IfRan result (boot.new ≡ after boot.old (run_on boot.old steps)) }
    ensures names { boot.new.names ≡ boot.old.names }
    ensures named { AnswerIsNamed boot.new.names result }
    ensures sink { IfSink result (FailsAtPut S.took boot.old steps boot.new out.old out.new) }
    // Only a service that puts puts, and it puts one piece.
    ensures pieces { S.pieces out.new ≤ S.pieces out.old + pieces_within boot.old steps }
    ensures ended { (exit : Exit) → boot.old.end ≡ Some exit → out.new ≡ out.old }
    ensures cause { IfSink result (Rose (S.faults out.old) (S.faults out.new)) }
    ensures later { S.faults out.old ≤ S.faults out.new }
    ensures stands { IfRan result (S.faults out.new ≡ S.faults out.old) }
{
    if let Some(exit) = boot.end {
        return End::from(exit);
    }
    for _done in 0..steps {
        match turn(boot, out) {
            Ok(None) => {}
            Ok(Some(exit)) => return End::from(exit),
            Err(_) => return End::Sink,
        }
    }
    End::Steps
}
