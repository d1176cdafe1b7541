ghost use Rattle.std.specs.Prelude.{◌≡◌, ◌≢◌, ◌≤◌, ◌<◌, ◌⊎◌, true, false, IfSome};
ghost use Rattle.std.specs.Io.KnownBytes.{Appends};
ghost use Rattle.op_edges.specs.Causes.{Rose};
ghost use Rattle.op_edges.specs.Streams.{AppendsPrefix};
ghost use Rattle.op_report.specs.ReadBack.{report_bytes};
ghost use Rattle.op_run.specs.Folders.{most_file_bytes, manifests_in, bytes_in};
ghost use Rattle.op_run.specs.Outputs.{reports_of, configuration_of};
ghost use Rattle.operator_cli.specs.Statuses.{is_ended, is_silent, is_cut_short, is_after_files, status_of};

use crate::status::Status;
use op_edges::{Folder, Sink};
use op_run::{NamedFile, Trouble, compile_files, read_manifests};
use std::alloc::Global;

/// Compiles the folder: writes a line for each manifest to `err`, and then the configuration of the
/// objects present with a newline to `out`.
pub fn compile<F: Folder, O: Sink, E: Sink>(
    alloc: Global,
    dir: &str,
    folder: &mut F,
    out: &mut O,
    err: &mut E,
) -> Status
    ensures lines { IfSome (F.content folder.old) (λ folders. is_ended result ≡ true
        → Appends (E.taken err.old) (E.taken err.new)
        (report_bytes (reports_of (manifests_in folders dir.now)))) }
    ensures configuration { IfSome (F.content folder.old) (λ folders. is_ended result ≡ true
        → Appends (O.taken out.old) (O.taken out.new) (configuration_of (manifests_in folders dir.now))) }
    ensures status { IfSome (F.content folder.old) (λ folders. is_ended result ≡ true
        → result ≡ status_of (reports_of (manifests_in folders dir.now))) }
    ensures stopped_lines { IfSome (F.content folder.old) (λ folders. is_ended result ≡ false
        → AppendsPrefix (E.taken err.old) (E.taken err.new)
        (report_bytes (reports_of (manifests_in folders dir.now)))) }
    ensures stopped_configuration { IfSome (F.content folder.old)
        (λ folders. is_ended result ≡ false
        → AppendsPrefix (O.taken out.old) (O.taken out.new) (configuration_of (manifests_in folders dir.now))) }
    ensures order { IfSome (F.content folder.old) (λ folders. (out.new ≡ out.old)
        ⊎ Appends (E.taken err.old) (E.taken err.new)
        (report_bytes (reports_of (manifests_in folders dir.now)))) }
    ensures silent { is_silent result ≡ true → (err.new ≡ err.old) × (out.new ≡ out.old) }
    ensures limit_silent { result ≡ Status.InputLimit → (err.new ≡ err.old) × (out.new ≡ out.old) }
    ensures too_many { IfSome (F.content folder.old)
        (λ folders. most_file_bytes < bytes_in (manifests_in folders dir.now)
        → out.new ≡ out.old) }
    ensures usage { result ≢ Status.Usage }
    ensures input_fault { result ≢ Status.InputFault }
    ensures folder_fault { result ≡ Status.FolderFault
        → Rose (F.faults folder.old) (F.faults folder.new) }
    ensures output_fault { result ≡ Status.OutputFault
        → Rose (O.faults out.old) (O.faults out.new) ⊎ Rose (E.faults err.old) (E.faults err.new) }
    ensures limit { IfSome (F.content folder.old) (λ folders. result ≡ Status.InputLimit
        → most_file_bytes < bytes_in (manifests_in folders dir.now)) }
    ensures within { IfSome (F.content folder.old)
        (λ folders. most_file_bytes < bytes_in (manifests_in folders dir.now)
        → is_cut_short result ≡ true) }
    ensures later { E.faults err.old ≤ E.faults err.new }
{
    match read_manifests(alloc, folder, dir) {
        Ok(files) => report_and_write(alloc, files.as_slice(), out, err),
        Err(Trouble::Folder) => Status::FolderFault,
        Err(Trouble::Limit) => Status::InputLimit,
        Err(Trouble::Memory) => Status::NoMemory,
    }
}

fn report_and_write<O: Sink, E: Sink>(
    alloc: Global,
    files: &[NamedFile],
    out: &mut O,
    err: &mut E,
) -> Status
    ensures answers { is_after_files result ≡ true }
    ensures lines { is_ended result ≡ true → Appends (E.taken err.old) (E.taken err.new)
        (report_bytes (reports_of files.now)) }
    ensures configuration { is_ended result ≡ true → Appends (O.taken out.old)
        (O.taken out.new) (configuration_of files.now) }
    ensures status { is_ended result ≡ true → result ≡ status_of (reports_of files.now) }
    ensures stopped_lines { is_ended result ≡ false
        → AppendsPrefix (E.taken err.old) (E.taken err.new) (report_bytes (reports_of files.now)) }
    ensures stopped_configuration { is_ended result ≡ false
        → AppendsPrefix (O.taken out.old) (O.taken out.new) (configuration_of files.now) }
    ensures order { (out.new ≡ out.old)
        ⊎ Appends (E.taken err.old) (E.taken err.new) (report_bytes (reports_of files.now)) }
    ensures output_fault { result ≡ Status.OutputFault
        → Rose (O.faults out.old) (O.faults out.new) ⊎ Rose (E.faults err.old) (E.faults err.new) }
    ensures later { E.faults err.old ≤ E.faults err.new }
{
    match compile_files(alloc, files, out, err) {
        Ok(good) => Status::of_run(good),
        Err(stop) => Status::of_stop(stop),
    }
}
