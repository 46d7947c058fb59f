//! What a program over the top call can promise, proved from its contract alone.
ghost use Rattle.std.specs.Prelude.{◌≡◌, ◌≢◌, ◌≤◌, ◌*◌, ◌⊎◌, ◌↔◌, ℕ, List, None, Some, Ok, true, false, IsTrue};
ghost use Rattle.md_io.specs.Count.{Rose};
ghost use Rattle.md_input.specs.declared.fault.Fault.{Fault};
ghost use Rattle.md_top.specs.declared.request.Request.{Request};
ghost use Rattle.md_top.specs.declared.stop.Status.{Status};
ghost use Rattle.md_top.specs.Answer.{fault_of};
ghost use Rattle.md_top.specs.Input.{IsInput};
ghost use Rattle.md_top.specs.Promise.{CanBeBad, CanBeGood, CanBeRejected};
ghost use Rattle.md_top.specs.Request.{request_of, texts};

use md_graph::Memory;
use md_io::{Files, Sink};
use md_top::{Status, run};
use std::alloc::Global;

/// A run without words: they are in no form.
pub fn run_without_words<F: Files, O: Sink, E: Sink>(
    alloc: Global,
    files: &mut F,
    out: &mut O,
    err: &mut E,
) -> Status
    ensures usage { result ≡ Status.Usage }
{
    run(alloc, &[], files, out, err)
}

/// Whether the words of a run are in no form.
pub fn are_in_no_form<F: Files, O: Sink, E: Sink>(
    alloc: Global,
    words: &[String],
    files: &mut F,
    out: &mut O,
    err: &mut E,
) -> bool
    ensures exactly { IsTrue result ↔ (request_of (texts words.now) ≡ None) }
{
    matches!(run(alloc, words, files, out, err), Status::Usage)
}

/// The exit code of a run, from 0 to 7: 2 exactly where the words are in no form; 0 and 1 only
/// where the input is well-formed and all that was put has reached the device, and 1 only where a
/// report can be rejected; 3 only where the input can have a fault; 4, 5 and 7 only where a load, a
/// write or the length of a file failed.
pub fn number_of_run<F: Files, O: Sink, E: Sink>(
    alloc: Global,
    words: &[String],
    files: &mut F,
    out: &mut O,
    err: &mut E,
) -> u8
    ensures all { result ≤ 7 }
    ensures usage { (result ≡ 2) ↔ (request_of (texts words.now) ≡ None) }
    ensures good_input { result ≤ 1 → CanBeGood (F.holds files.old) (request_of (texts words.now)) }
    ensures flushed { result ≤ 1 → O.reached out.new ≡ O.holds out.new }
    ensures rejected { result ≡ 1
        → CanBeRejected (F.holds files.old) (request_of (texts words.now)) }
    ensures bad_input { result ≡ 3
        → (fault : Fault) × CanBeBad (F.holds files.old) (request_of (texts words.now)) fault }
    ensures read_fault { result ≡ 4 → Rose (F.faults files.old) (F.faults files.new) }
    ensures write_fault { result ≡ 5 → Rose (O.faults out.old) (O.faults out.new) }
    ensures too_long { result ≡ 7 → Rose (F.overs files.old) (F.overs files.new) }
{
    run(alloc, words, files, out, err).number()
}

/// Whether the input of a run is well-formed; `None` where that can't be told, as the words are in
/// no form, or a file can't be loaded or is too long. Errors: want of memory.
pub fn is_well_formed<F: Files, O: Sink, E: Sink>(
    alloc: Global,
    words: &[String],
    files: &mut F,
    out: &mut O,
    err: &mut E,
) -> Result<Option<bool>, Memory>
    ensures good { result ≡ Ok (Some true)
        → CanBeGood (F.holds files.old) (request_of (texts words.now)) }
    ensures bad { result ≡ Ok (Some false)
        → (fault : Fault) × CanBeBad (F.holds files.old) (request_of (texts words.now)) fault }
    ensures faulty { (input : Request (List ℕ)) (fault : Fault)
        → IsInput (F.holds files.old) (request_of (texts words.now)) input
        → fault_of input ≡ Some fault → result ≢ Ok (Some true) }
    ensures no_form { request_of (texts words.now) ≡ None → result ≡ Ok None }
    ensures untold { result ≡ Ok None → (request_of (texts words.now) ≡ None)
        ⊎ Rose (F.faults files.old) (F.faults files.new)
        ⊎ Rose (F.overs files.old) (F.overs files.new) }
{
    match run(alloc, words, files, out, err) {
        Status::Done => Ok(Some(true)),
        Status::Rejected => Ok(Some(true)),
        Status::WriteFault => Ok(Some(true)),
        Status::BadInput => Ok(Some(false)),
        Status::Usage => Ok(None),
        Status::ReadFault => Ok(None),
        Status::TooLong => Ok(None),
        Status::Memory => Err(Memory),
    }
}
