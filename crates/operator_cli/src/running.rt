ghost use Rattle.std.specs.Prelude.{◌≡◌, ◌≢◌, ◌<◌, ◌⊎◌, ◌+◌, ◌≤◌, [], length, true, false, IfSome};
ghost use Rattle.std.specs.Io.KnownBytes.{Appends};
ghost use Rattle.op_edges.specs.Causes.{Rose};
ghost use Rattle.op_edges.specs.Lines.{most_bytes};
ghost use Rattle.op_edges.specs.Streams.{AppendsPrefix};
ghost use Rattle.op_edges.specs.Told.{Told};
ghost use Rattle.op_run.specs.Folders.{most_file_bytes, manifests_in, bytes_in};
ghost use Rattle.op_run.specs.Outputs.{run_reports, run_text};
ghost use Rattle.operator_cli.specs.Statuses.{is_ended, is_cut_short, status_of};

use crate::status::Status;
use op_edges::{Folder, Sink, Source};
use op_run::{NamedFile, Trouble, read_manifests, run_files};
use std::alloc::Global;

/// Runs the folder over the input: writes a line for each manifest and what each line says to `out` as
/// it goes, and the configuration of the objects present with a newline as the last line.
pub fn run<F: Folder, S: Source, O: Sink>(
    alloc: Global,
    dir: &str,
    folder: &mut F,
    input: &mut S,
    out: &mut O,
) -> Status
    ensures text { IfSome (F.content folder.old) (λ folders. Told (S.left input.old)
        (S.left input.new) (λ bytes after.
        is_ended result ≡ true → Appends (O.taken out.old) (O.taken out.new)
        (run_text (manifests_in folders dir.now) bytes))) }
    ensures status { IfSome (F.content folder.old) (λ folders. Told (S.left input.old)
        (S.left input.new) (λ bytes after.
        is_ended result ≡ true → result ≡ status_of (run_reports (manifests_in folders dir.now) bytes))) }
    ensures stopped { IfSome (F.content folder.old) (λ folders. Told (S.left input.old)
        (S.left input.new) (λ bytes after.
        is_ended result ≡ false → AppendsPrefix (O.taken out.old) (O.taken out.new)
        (run_text (manifests_in folders dir.now) bytes))) }
    ensures read { Told (S.left input.old) (S.left input.new)
        (λ bytes after. is_ended result ≡ true → length bytes ≤ most_bytes) }
    ensures whole { Told (S.left input.old) (S.left input.new)
        (λ bytes after. is_ended result ≡ true → after ≡ []) }
    ensures within { IfSome (F.content folder.old)
        (λ folders. most_file_bytes < bytes_in (manifests_in folders dir.now)
        → is_cut_short result ≡ true) }
    ensures limit { IfSome (F.content folder.old) (λ folders. Told (S.left input.old)
        (S.left input.new) (λ bytes after.
        result ≡ Status.InputLimit → (most_file_bytes < bytes_in (manifests_in folders dir.now))
        ⊎ (most_bytes + length after < length bytes))) }
    ensures silent { result ≡ Status.FolderFault → out.new ≡ out.old }
    ensures too_many { IfSome (F.content folder.old)
        (λ folders. most_file_bytes < bytes_in (manifests_in folders dir.now)
        → out.new ≡ out.old) }
    ensures usage { result ≢ Status.Usage }
    ensures folder_fault { result ≡ Status.FolderFault
        → Rose (F.faults folder.old) (F.faults folder.new) }
    ensures input_fault { result ≡ Status.InputFault
        → Rose (S.faults input.old) (S.faults input.new) }
    ensures output_fault { result ≡ Status.OutputFault
        → Rose (O.faults out.old) (O.faults out.new) }
{
    match read_manifests(alloc, folder, dir) {
        Ok(files) => run_over(alloc, files.as_slice(), input, out),
        Err(Trouble::Folder) => Status::FolderFault,
        Err(Trouble::Limit) => Status::InputLimit,
        Err(Trouble::Memory) => Status::NoMemory,
    }
}

fn run_over<S: Source, O: Sink>(
    alloc: Global,
    files: &[NamedFile],
    input: &mut S,
    out: &mut O,
) -> Status
    ensures text { Told (S.left input.old) (S.left input.new) (λ bytes after.
        is_ended result ≡ true → Appends (O.taken out.old) (O.taken out.new)
        (run_text files.now bytes)) }
    ensures status { Told (S.left input.old) (S.left input.new) (λ bytes after.
        is_ended result ≡ true → result ≡ status_of (run_reports files.now bytes)) }
    ensures stopped { Told (S.left input.old) (S.left input.new) (λ bytes after.
        is_ended result ≡ false → AppendsPrefix (O.taken out.old) (O.taken out.new)
        (run_text files.now bytes)) }
    ensures read { Told (S.left input.old) (S.left input.new)
        (λ bytes after. is_ended result ≡ true → length bytes ≤ most_bytes) }
    ensures whole { Told (S.left input.old) (S.left input.new)
        (λ bytes after. is_ended result ≡ true → after ≡ []) }
    ensures limit { Told (S.left input.old) (S.left input.new) (λ bytes after.
        result ≡ Status.InputLimit → most_bytes + length after < length bytes) }
    ensures kinds { (result ≢ Status.Usage) × (result ≢ Status.FolderFault) }
    ensures input_fault { result ≡ Status.InputFault
        → Rose (S.faults input.old) (S.faults input.new) }
    ensures output_fault { result ≡ Status.OutputFault
        → Rose (O.faults out.old) (O.faults out.new) }
{
    match run_files(alloc, files, input, out) {
        Ok(good) => Status::of_run(good),
        Err(stop) => Status::of_stop(stop),
    }
}
