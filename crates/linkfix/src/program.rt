//! The program over any reader and writer.

ghost use Rattle.std.specs.Prelude.{◌≡◌, ◌≢◌, ◌≤◌, ◌↔◌, ◌⊎◌, ◌++◌, ◌∷◌, [], ℕ, List, codes};
ghost use Rattle.std.specs.Prelude.{decimal, length, IfSome, IfOk, IfErr, OnOk, OnErr};
ghost use Rattle.std.specs.String.{string_bytes};
ghost use Rattle.std.specs.Io.KnownBytes.{Appends};
ghost use Rattle.hex.specs.Hex.{encode_lower};
ghost use Rattle.linker_utils.specs.Deletions.{AreDisjoint, IsSortedUnion, IsSelected, HasInput};
ghost use Rattle.linker_utils.specs.Packing.{IsPacked};
ghost use Rattle.linker_utils.specs.RiscVCalls.{JumpsAt, output_distance};
ghost use Rattle.linker_utils.specs.CallError.{CallError};
ghost use Rattle.linker_utils.specs.LinkRegister.{LinkRegister};
ghost use Rattle.linkfix.specs.ResultLines.{result_line};
ghost use Rattle.linkfix.specs.ErrorLines.{error_line};
ghost use Rattle.linkfix.specs.Execution.{CallFailsWith, EndsWith, Executes, ExecutesInput};
ghost use Rattle.linkfix.specs.Execution.{IsMemoryOrIoError, Rejects, TakesMemoryFirst};
ghost use Rattle.linkfix.specs.Laws.{RejectedInputsAreNotExecuted};
ghost use Rattle.linkfix.specs.declared.commands.Command.{Command};
ghost use Rattle.linkfix.specs.declared.input.InputError.{InputError};
ghost use Rattle.linkfix.specs.declared.program.ReportedError.{ReportedError};
ghost use Rattle.linkfix.specs.declared.program.RunError.{RunError};
ghost use Rattle.linkfix.specs.declared.sections.LineFault.{LineFault};

use crate::accepted_calls::AcceptedCalls;
use crate::commands::{BadLine, Command, parse_command};
use crate::input::{InputError, Lines};
use crate::sections::{LineFault, read_section, show_section};
use linker_utils::relaxation::{OutOfMemory, PackError, SectionRelaxDeltas, pack_section};
use linker_utils::riscv64::{CallError, relax_call};
use std::alloc::{AllocError, Global};
use std::io;
use std::io::{Read, Write};

/// An error that ends the run and is printed as its last line.
#[derive(Clone, Copy)]
enum ReportedError {
    BadSection,
    BadLine,
    BadDeletion,
    TooLarge,
    BadCall,
    Call(CallError),
    OutOfMemory,
}

impl ReportedError {
    /// The line that is printed.
    fn line(self) -> &'static str
        ensures { result.now ≡ error_line self }
    {
        match self {
            ReportedError::BadSection => "bad section\n",
            ReportedError::BadLine => "bad line\n",
            ReportedError::BadDeletion => "bad deletion\n",
            ReportedError::TooLarge => "too large\n",
            ReportedError::BadCall => "bad call\n",
            ReportedError::Call(CallError::OutOfSection) => "OutOfSection\n",
            ReportedError::Call(CallError::SiteDeleted) => "SiteDeleted\n",
            ReportedError::Call(CallError::OddDistance) => "OddDistance\n",
            ReportedError::Call(CallError::TooFar) => "TooFar\n",
            ReportedError::OutOfMemory => "out of memory\n",
        }
    }
}

/// An error that ends the run.
#[derive(Clone, Copy)]
enum RunError {
    Reported(ReportedError),
    /// A read or a write failed; nothing more is printed.
    Io,
}

impl From<InputError> for RunError {
    ghost from_gives = { λ error run_error. (error ≡ InputError.Read → run_error ≡ RunError.Io)
        × (error ≡ InputError.OutOfMemory
        → run_error ≡ RunError.Reported ReportedError.OutOfMemory) };

    fn from(error: InputError) -> RunError {
        match error {
            InputError::Read => RunError::Io,
            InputError::OutOfMemory => RunError::Reported(ReportedError::OutOfMemory),
        }
    }
}

impl From<LineFault> for RunError {
    ghost from_gives = { λ error run_error.
        (error ≡ LineFault.BadSection → run_error ≡ RunError.Reported ReportedError.BadSection)
        × (error ≡ LineFault.OutOfMemory
        → run_error ≡ RunError.Reported ReportedError.OutOfMemory) };

    fn from(error: LineFault) -> RunError {
        RunError::Reported(match error {
            LineFault::BadSection => ReportedError::BadSection,
            LineFault::OutOfMemory => ReportedError::OutOfMemory,
        })
    }
}

impl From<BadLine> for RunError {
    ghost from_gives = { λ _ run_error. run_error ≡ RunError.Reported ReportedError.BadLine };

    fn from(_e: BadLine) -> RunError {
        RunError::Reported(ReportedError::BadLine)
    }
}

impl From<CallError> for ReportedError {
    ghost from_gives = { λ error reported. reported ≡ ReportedError.Call error };

    fn from(error: CallError) -> ReportedError {
        ReportedError::Call(error)
    }
}

impl From<AllocError> for ReportedError {
    ghost from_gives = { λ _ reported. reported ≡ ReportedError.OutOfMemory };

    fn from(_e: AllocError) -> ReportedError {
        ReportedError::OutOfMemory
    }
}

impl From<OutOfMemory> for ReportedError {
    ghost from_gives = { λ _ reported. reported ≡ ReportedError.OutOfMemory };

    fn from(_e: OutOfMemory) -> ReportedError {
        ReportedError::OutOfMemory
    }
}

impl From<ReportedError> for RunError {
    ghost from_gives = { λ error run_error. run_error ≡ RunError.Reported error };

    fn from(error: ReportedError) -> RunError {
        RunError::Reported(error)
    }
}

impl From<OutOfMemory> for RunError {
    ghost from_gives = { λ _ run_error. run_error ≡ RunError.Reported ReportedError.OutOfMemory };

    fn from(_e: OutOfMemory) -> RunError {
        RunError::Reported(ReportedError::OutOfMemory)
    }
}

impl From<io::Error> for RunError {
    ghost from_gives = { λ _ run_error. run_error ≡ RunError.Io };

    fn from(_e: io::Error) -> RunError {
        RunError::Io
    }
}

/// Reads a section and then commands from `input`, executes the commands in order, and prints one
/// line for each to `output`. Returns the exit status: 0 if every command was executed. The first
/// error is printed as the last line, and the status is 1. If a read or a write fails, or the input
/// has not ended after `MAX_READS` reads, nothing more is printed, and the status is 1.
pub fn run<R: Read + Drop, W: Write + Drop>(alloc: Global, input: R, mut output: W) -> u8
    ensures status { result ≤ 1 }
    ensures executed { result ≡ 0 → IfSome (R.remaining input) (λ bytes.
        (printed : List ℕ) × ExecutesInput bytes printed) }
{
    run_into(alloc, input, &mut output).unwrap_or(1)
}

/// What `run` does, into a writer that is kept. None if a read or a write fails.
fn run_into<R: Read + Drop, W: Write>(alloc: Global, input: R, output: &mut W) -> Option<u8>
    ensures status { IfSome result (λ status. status ≤ 1) }
    ensures executed { IfSome result (λ status. status ≡ 0 → IfSome (R.remaining input) (λ bytes.
        (printed : List ℕ) × ExecutesInput bytes printed
        × Appends (W.contents output.old) (W.contents output.new) printed)) }
    ensures stopped { IfSome result (λ status. status ≡ 1 → IfSome (R.remaining input) (λ bytes.
        (printed : List ℕ) × (error : ReportedError) × EndsWith bytes printed error
        × Appends (W.contents output.old) (W.contents output.new) (printed ++ error_line error))) }
{
    match execute_lines(alloc, input, output) {
        Ok(()) => Some(0),
        Err(RunError::Reported(error)) => match output.write_all(error.line().as_bytes()) {
            Ok(()) => Some(1),
            Err(_) => None,
        },
        Err(RunError::Io) => None,
    }
}

fn execute_lines<R: Read + Drop, W: Write>(
    alloc: Global,
    input: R,
    output: &mut W,
) -> Result<(), RunError>
    ensures executed { OnOk result (IfSome (R.remaining input) (λ bytes.
        (printed : List ℕ) × ExecutesInput bytes printed
        × Appends (W.contents output.old) (W.contents output.new) printed)) }
    ensures stopped { (error : ReportedError) → result ≡ Err (RunError.Reported error)
        → IfSome (R.remaining input) (λ bytes. (printed : List ℕ) × EndsWith bytes printed error
        × Appends (W.contents output.old) (W.contents output.new) printed) }
{
    let mut lines = Lines::new(input);
    let mut line = Vec::new(alloc);
    lines.next_line(&mut line)?;
    let mut state = SectionState {
        alloc,
        section: read_section(alloc, &line)?,
        deltas: SectionRelaxDeltas::new(alloc, &[])?,
        calls: AcceptedCalls::new(alloc),
    };
    while lines.next_line(&mut line)? {
        if let Some(command) = parse_command(&line)? {
            state.execute(command, output)?;
        }
    }
    Ok(())
}

/// An input on which a run ends with an error, other than out of memory, can't be executed.
pub fn rejected_inputs_are_not_executed()
    ensures { RejectedInputsAreNotExecuted }
{}

/// What is printed for a command.
#[derive(Drop)]
enum CommandResult {
    /// `ok`.
    Done,
    /// A line.
    Line(String),
}

impl CommandResult {
    /// The line, with its end.
    fn line(&self) -> &str
        ensures { result.now ≡ result_line self.now }
    {
        match self {
            CommandResult::Done => "ok\n",
            CommandResult::Line(line) => line.as_str(),
        }
    }
}

/// The section that the commands work on, its deletions, and its calls that were made jumps. The
/// bytes that are listed as deleted are still in `section`, so that each command's offsets are
/// input offsets.
#[derive(Drop)]
struct SectionState {
    alloc: Global,
    section: Vec<u8>,
    deltas: SectionRelaxDeltas,
    calls: AcceptedCalls,
}

impl SectionState {
    /// Executes a command and prints its line.
    fn execute<W: Write>(&mut self, command: Command, output: &mut W) -> Result<(), RunError>
        ensures executed { OnOk result ((line : List ℕ) × Executes command self.old self.new line
            × Appends (W.contents output.old) (W.contents output.new) (line ++ codes "\n")) }
        ensures rejected { IfErr result (λ run_error.
            ((error : ReportedError) × (run_error ≡ RunError.Reported error)
            × Rejects command self.old error)
            ⊎ IsMemoryOrIoError run_error) }
        ensures causes { (error : ReportedError) → Rejects command self.old error
            → (result ≡ Err (RunError.Reported error))
            ⊎ (TakesMemoryFirst command error
            × (result ≡ Err (RunError.Reported ReportedError.OutOfMemory))) }
        ensures silent { IfErr result (λ run_error. (run_error ≡ RunError.Io)
            ⊎ (W.contents output.new ≡ W.contents output.old)) }
    {
        let result = self.apply(command)?;
        output.write_all(result.line().as_bytes())?;
        Ok(())
    }

    /// Applies a command, and returns what is printed for it.
    fn apply(&mut self, command: Command) -> Result<CommandResult, ReportedError>
        ensures executed { IfOk result (λ made. (line : List ℕ)
            × Executes command self.old self.new line
            × (result_line made ≡ line ++ codes "\n")) }
        ensures rejected { IfErr result (λ error. Rejects command self.old error
            ⊎ (error ≡ ReportedError.OutOfMemory)) }
        ensures causes { (error : ReportedError) → Rejects command self.old error
            → (result ≡ Err error)
            ⊎ (TakesMemoryFirst command error × (result ≡ Err ReportedError.OutOfMemory)) }
    {
        match command {
            Command::Delete { offset, bytes } => {
                self.delete(offset, bytes)?;
                Ok(CommandResult::Done)
            }
            Command::ToOutput { input_offset } => {
                let number = self.deltas.input_to_output_offset(input_offset);
                Ok(CommandResult::Line(number_line(self.alloc, number)?))
            }
            Command::ToInput { output_offset } => {
                let number = self.input_offset(output_offset)?;
                Ok(CommandResult::Line(number_line(self.alloc, number)?))
            }
            Command::Call { site, target } => {
                self.call(site, target)?;
                Ok(CommandResult::Done)
            }
            Command::Show => Ok(CommandResult::Line(section_line(self.alloc, &self.section)?)),
            Command::Pack => {
                let packed = self.pack()?;
                Ok(CommandResult::Line(section_line(self.alloc, &packed)?))
            }
        }
    }

    /// Adds a deletion. `BadDeletion` if it overlaps an earlier one, begins at the same offset, or
    /// ends past 2^64 - 1.
    fn delete(&mut self, offset: u64, bytes: u32) -> Result<(), ReportedError>
        ensures deleted { OnOk result
            (IsSortedUnion (self.old.deltas ++ (offset, bytes) ∷ []) self.new.deltas) }
        ensures bad_deletion { (result ≡ Err ReportedError.BadDeletion)
            ↔ ¬ AreDisjoint (self.old.deltas ++ (offset, bytes) ∷ []) }
        ensures errors { IfErr result (λ e. (e ≡ ReportedError.BadDeletion)
            ⊎ (e ≡ ReportedError.OutOfMemory)) }
        ensures unchanged { OnErr result (self.new.deltas ≡ self.old.deltas) }
        ensures section_stays { self.new.section ≡ self.old.section }
        ensures calls_stay { self.new.calls ≡ self.old.calls }
    {
        let pair = [(offset, bytes)];
        if !self.deltas.is_mergeable(&pair) {
            return Err(ReportedError::BadDeletion);
        }
        self.deltas.merge_additional(&pair)?;
        Ok(())
    }

    /// The input offset of the kept byte at an output offset. `TooLarge` if it exceeds 2^64 - 1.
    fn input_offset(&self, output_offset: u64) -> Result<u64, ReportedError>
        ensures selected { IfOk result (λ p. IsSelected self.now.deltas output_offset p) }
        ensures too_large { (result ≡ Err ReportedError.TooLarge)
            ↔ ¬ HasInput self.now.deltas output_offset }
        ensures errors { IfErr result (λ e. e ≡ ReportedError.TooLarge) }
    {
        if !self.deltas.output_fits(output_offset) {
            return Err(ReportedError::TooLarge);
        }
        Ok(self.deltas.output_to_input_offset(output_offset))
    }

    /// Replaces the call at `site` by one jump to `target`, and accepts it. `BadCall` if its site
    /// is less than 4 from that of an accepted call. Then it adds the call, and then come the
    /// errors of `jump`, with which it takes the call out again.
    fn call(&mut self, site: u64, target: u64) -> Result<(), ReportedError>
        ensures executed { OnOk result
            (Executes (Command.Call site target) self.old self.new (codes "ok")) }
        ensures rejected { IfErr result (λ error.
            Rejects (Command.Call site target) self.old error
            ⊎ (error ≡ ReportedError.OutOfMemory)) }
        ensures causes { (error : ReportedError)
            → Rejects (Command.Call site target) self.old error → (result ≡ Err error)
            ⊎ ((error ≢ ReportedError.BadCall) × (result ≡ Err ReportedError.OutOfMemory)) }
        ensures unchanged { OnErr result ((self.new.section.items ≡ self.old.section.items)
            × (self.new.calls ≡ self.old.calls)) }
        ensures deltas_stay { self.new.deltas ≡ self.old.deltas }
    {
        if !self.calls.are_far_from(site) {
            return Err(ReportedError::BadCall);
        }
        self.calls.insert(site, target)?;
        if let Err(error) = self.jump(site, target) {
            self.calls.remove(site);
            return Err(ReportedError::Call(error));
        }
        Ok(())
    }

    /// Replaces the call at `site` by one jump to `target`, whose distance counts only kept bytes.
    fn jump(&mut self, site: u64, target: u64) -> Result<(), CallError>
        ensures jumps { OnOk result (JumpsAt self.old.section.items self.new.section.items site
            (output_distance self.old.deltas site target)) }
        ensures errors { (error : CallError) → (result ≡ Err error)
            ↔ CallFailsWith error self.old.section.items self.old.deltas site target }
        ensures unchanged { OnErr result (self.new.section.items ≡ self.old.section.items) }
        ensures deltas_stay { self.new.deltas ≡ self.old.deltas }
        ensures calls_stay { self.new.calls ≡ self.old.calls }
        ensures len_stays { length self.new.section.items ≡ length self.old.section.items }
    {
        relax_call(self.section.as_mut_slice(), &self.deltas, site, target)
    }

    /// The section packed, with the accepted calls made jumps.
    fn pack(&self) -> Result<Vec<u8>, ReportedError>
        ensures packed { IfOk result (λ packed. IsPacked LinkRegister.OfAuipc self.now.deltas
            self.now.section.items self.now.calls packed.items) }
        ensures rejected { IfErr result (λ error. Rejects Command.Pack self.now error
            ⊎ (error ≡ ReportedError.OutOfMemory)) }
        ensures causes { (error : ReportedError) → Rejects Command.Pack self.now error
            → (result ≡ Err error) ⊎ (result ≡ Err ReportedError.OutOfMemory) }
    {
        let calls = self.calls.to_vec(self.alloc)?;
        match pack_section(self.alloc, &self.section, &self.deltas, &calls) {
            Ok(packed) => Ok(packed),
            Err(PackError::OutOfMemory) => Err(ReportedError::OutOfMemory),
            Err(PackError::Call { error, .. }) => Err(ReportedError::Call(error)),
        }
    }
}

/// A number as a line.
fn number_line(alloc: Global, number: u64) -> Result<String, AllocError>
    ensures { IfOk result (λ line. string_bytes line ≡ decimal number ++ codes "\n") }
{
    format!(in alloc; "{number}\n")
}

/// The bytes of a section as a line.
fn section_line(alloc: Global, section: &[u8]) -> Result<String, AllocError>
    ensures { IfOk result (λ line. string_bytes line ≡ encode_lower section.now ++ codes "\n") }
{
    let mut line = show_section(alloc, section)?;
    line.push('\n')?;
    Ok(line)
}
