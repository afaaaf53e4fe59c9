//! How the program ends.
#![tactic(auto)]

ghost use Rattle.std.specs.Prelude.{◌≡◌, ◌≤◌, IfOk};
ghost use Rattle.fam_outer.specs.Writing.{Reports};
ghost use Rattle.famlint_core.specs.Endings.{IsEnded, streams};
ghost use Rattle.famlint_core.specs.Endings.{read_fault_line, usage_line, memory_line};

use fam_outer::{Sink, write_all};
use famlint_loads::{Done, Failure};
use famlint_requests::Role;
use std::alloc::Global;

/// The usage of the program.
const USAGE: &str =
    "usage: famlint plain FILE, project MODEL FILE SETTINGS, variant MODEL FILE SETTINGS, run MODEL FILE SETTINGS, analyse MODEL FILE, invariants MODEL FILE, page MODEL FILE, generate NUMBER, certify MODEL FILE, check MODEL FILE CERTIFICATE, advise MODEL FILE SETTINGS, features MODEL\n";

/// Writes a line, as far as the sink takes it.
fn tell<E: Sink>(err: &mut E, line: &[u8])
    ensures line { Reports (E.written err.old) (E.written err.new) line.now (E.faults err.old)
        (E.faults err.new) }
    ensures later { E.faults err.old ≤ E.faults err.new }
{
    let _whole = write_all(err, line);
}

/// The line that tells a failed load.
fn role_line(role: Role) -> &'static [u8]
    ensures { result.now ≡ read_fault_line role }
{
    match role {
        Role::Model => b"read fault: model\n",
        Role::File => b"read fault: file\n",
        Role::Certificate => b"read fault: certificate\n",
    }
}

/// Ends the program where its words are refused.
pub fn refuse<E: Sink>(err: &mut E) -> u8
    ensures status { result ≡ 2 }
    ensures line { Reports (E.written err.old) (E.written err.new) usage_line (E.faults err.old)
        (E.faults err.new) }
    ensures later { E.faults err.old ≤ E.faults err.new }
{
    tell(err, USAGE.as_bytes());
    2
}

/// Ends the program for want of memory.
pub fn give_up<E: Sink>(err: &mut E) -> u8
    ensures status { result ≡ 8 }
    ensures line { Reports (E.written err.old) (E.written err.new) memory_line (E.faults err.old)
        (E.faults err.new) }
    ensures later { E.faults err.old ≤ E.faults err.new }
{
    tell(err, b"want of memory\n");
    8
}

/// Ends the program with what the work came to.
pub fn end<S: Sink, E: Sink>(
    alloc: Global,
    came: &Result<Done, Failure>,
    failed: Role,
    out: &mut S,
    err: &mut E,
) -> u8
    requires { IfOk came.now (λ done. done.status ≤ 1) }
    ensures { IsEnded came.now failed result
        (streams (S.written out.old) (E.written err.old) (S.faults out.old) (E.faults err.old))
        (streams (S.written out.new) (E.written err.new) (S.faults out.new) (E.faults err.new)) }
{
    match came {
        Err(Failure::NoMemory) => give_up(err),
        Err(Failure::ReadFault) => {
            tell(err, role_line(failed));
            6
        }
        Err(Failure::Refused(fault)) => match fault.line(alloc) {
            Err(_) => give_up(err),
            Ok(line) => {
                tell(err, line.bytes());
                fault.status()
            }
        },
        Ok(done) => {
            if write_all(out, done.text.bytes()) {
                done.status
            } else {
                tell(err, b"write fault\n");
                7
            }
        }
    }
}
