ghost use Rattle.std.specs.Prelude.{◌≡◌, ◌≤◌, ◌<◌, ◌+◌, ◌⊎◌, ◌↔◌, [], length, true, false, map, string_bytes, IsNone};
ghost use Rattle.std.specs.Io.KnownBytes.{Appends};
ghost use Rattle.op_edges.specs.Causes.{Rose};
ghost use Rattle.op_edges.specs.Lines.{most_bytes};
ghost use Rattle.op_edges.specs.Streams.{AppendsPrefix};
ghost use Rattle.op_report.specs.ReadBack.{report_bytes};
ghost use Rattle.operator_cli.specs.Endings.{WhereTold, WhereCompiled, WhereRun, StopsWith, InOrder, asks_input};
ghost use Rattle.op_run.specs.Folders.{most_file_bytes, bytes_in};
ghost use Rattle.op_run.specs.Headline.{Headline};
ghost use Rattle.op_run.specs.Outputs.{reports_of, configuration_of, run_reports, run_text};
ghost use Rattle.operator_cli.specs.Readings.{reading_of};
ghost use Rattle.operator_cli.specs.Statuses.{status_text, is_ended, is_silent, is_cut_short, is_whole, status_of};

use crate::compiling::compile;
use crate::running::run;
use crate::status::Status;
use crate::words::{Reading, read_words};
use op_base::Steps;
use op_edges::{Folder, Sink, Source, put_all};
use std::alloc::Global;
use std::sync::ledger::Ledger;

/// The whole program over what it is handed: the words after its name, a folder of manifests, an
/// input, standard output and standard error, and a counter of steps.
///
/// `compile DIR` reads the folder's manifests, writes a line for each to `err`, and the
/// configuration of the objects present with a newline to `out`. `run DIR` writes the lines to `out`,
/// goes on with the lines of the input over what was compiled, and writes the configuration last.
pub fn operate<F: Folder, S: Source, O: Sink, E: Sink, L: Ledger>(
    alloc: Global,
    words: &[String],
    folder: &mut F,
    input: &mut S,
    out: &mut O,
    err: &mut E,
    steps: &mut Steps<L>,
) -> Status
    // What `compile` wrote where all was read to its end, and what the status says then.
    ensures lines { WhereCompiled (map string_bytes words.now) (F.content folder.old)
        (λ files. is_ended result ≡ true
        → Appends (E.taken err.old) (E.taken err.new) (report_bytes (reports_of files))) }
    ensures configuration { WhereCompiled (map string_bytes words.now) (F.content folder.old)
        (λ files. is_ended result ≡ true
        → Appends (O.taken out.old) (O.taken out.new) (configuration_of files)) }
    ensures status { WhereCompiled (map string_bytes words.now) (F.content folder.old)
        (λ files. is_ended result ≡ true
        → result ≡ status_of (reports_of files)) }

    // The configuration is written after all lines.
    ensures order { WhereCompiled (map string_bytes words.now) (F.content folder.old) (λ files.
        InOrder (out.new ≡ out.old) (E.taken err.old) (E.taken err.new)
        (report_bytes (reports_of files)) (status_text result)) }

    // What it wrote where it ended before.
    ensures stopped_lines { WhereCompiled (map string_bytes words.now) (F.content folder.old)
        (λ files. is_ended result ≡ false
        → StopsWith (E.taken err.old) (E.taken err.new)
        (report_bytes (reports_of files)) (status_text result)
        (Rose (E.faults err.old) (E.faults err.new))) }
    ensures stopped_configuration { WhereCompiled (map string_bytes words.now)
        (F.content folder.old) (λ files. is_ended result ≡ false
        → AppendsPrefix (O.taken out.old) (O.taken out.new) (configuration_of files)) }

    // What `run` wrote where all was read to its end, for all objects, what the status says then, and
    // that nothing is left of the input.
    ensures run_text { WhereRun (map string_bytes words.now) (F.content folder.old)
        (S.left input.old) (S.left input.new) (λ files bytes left. is_ended result ≡ true
        → Appends (O.taken out.old) (O.taken out.new) (run_text files bytes)) }
    ensures run_status { WhereRun (map string_bytes words.now) (F.content folder.old)
        (S.left input.old) (S.left input.new) (λ files bytes left. is_ended result ≡ true
        → result ≡ status_of (run_reports files bytes)) }
    ensures run_whole { WhereRun (map string_bytes words.now) (F.content folder.old)
        (S.left input.old) (S.left input.new) (λ files bytes left. is_ended result ≡ true
        → left ≡ []) }

    // Isolation: the lines of each namespace are those of its own world, and the last line is the
    // from-scratch text of the objects present.
    ensures headline { WhereRun (map string_bytes words.now) (F.content folder.old)
        (S.left input.old) (S.left input.new) (λ files bytes left. is_ended result ≡ true
        → Headline files bytes (O.taken out.old) (O.taken out.new)) }

    // What it wrote where it ended before; to `err` it writes the status text alone.
    ensures run_stopped { WhereRun (map string_bytes words.now) (F.content folder.old)
        (S.left input.old) (S.left input.new) (λ files bytes left. is_ended result ≡ false
        → AppendsPrefix (O.taken out.old) (O.taken out.new) (run_text files bytes)) }
    ensures run_err { asks_input (map string_bytes words.now) ≡ true
        → StopsWith (E.taken err.old) (E.taken err.new) [] (status_text result)
        (Rose (E.faults err.old) (E.faults err.new)) }

    // What is written where nothing was begun.
    ensures silent_err { is_silent result ≡ true → StopsWith (E.taken err.old)
        (E.taken err.new) [] (status_text result)
        (Rose (E.faults err.old) (E.faults err.new)) }
    ensures silent_out { is_silent result ≡ true → out.new ≡ out.old }
    ensures limit_err { result ≡ Status.InputLimit → asks_input (map string_bytes words.now) ≡ false
        → StopsWith (E.taken err.old) (E.taken err.new) [] (status_text result)
        (Rose (E.faults err.old) (E.faults err.new)) }
    ensures limit_out { result ≡ Status.InputLimit → asks_input (map string_bytes words.now)
        ≡ false → out.new ≡ out.old }
    ensures too_many { WhereTold (map string_bytes words.now) (F.content folder.old)
        (λ files. most_file_bytes < bytes_in files
        → out.new ≡ out.old) }

    // When each status comes.
    ensures usage { (result ≡ Status.Usage) ↔ IsNone (reading_of (map string_bytes words.now)) }
    ensures folder_fault { result ≡ Status.FolderFault
        → Rose (F.faults folder.old) (F.faults folder.new) }
    ensures output_fault { result ≡ Status.OutputFault
        → Rose (O.faults out.old) (O.faults out.new) ⊎ Rose (E.faults err.old) (E.faults err.new) }
    ensures run_output_fault { asks_input (map string_bytes words.now) ≡ true
        → result ≡ Status.OutputFault
        → Rose (O.faults out.old) (O.faults out.new) }
    ensures input_fault { result ≡ Status.InputFault
        → (asks_input (map string_bytes words.now) ≡ true)
        × Rose (S.faults input.old) (S.faults input.new) }
    ensures limit { WhereCompiled (map string_bytes words.now) (F.content folder.old)
        (λ files. result ≡ Status.InputLimit
        → most_file_bytes < bytes_in files) }
    ensures within { WhereTold (map string_bytes words.now) (F.content folder.old)
        (λ files. most_file_bytes < bytes_in files
        → is_cut_short result ≡ true) }
    ensures run_limit { WhereRun (map string_bytes words.now) (F.content folder.old)
        (S.left input.old) (S.left input.new) (λ files bytes left. result ≡ Status.InputLimit
        → (most_file_bytes < bytes_in files) ⊎ (most_bytes + length left < length bytes)) }
    ensures run_within { WhereRun (map string_bytes words.now) (F.content folder.old)
        (S.left input.old) (S.left input.new) (λ files bytes left. most_bytes < length bytes
        → is_ended result ≡ false) }
    ensures complete { WhereCompiled (map string_bytes words.now) (F.content folder.old)
        (λ files. bytes_in files ≤ most_file_bytes
        → (is_whole result ≡ true) ⊎ Rose (F.faults folder.old) (F.faults folder.new)
        ⊎ Rose (O.faults out.old) (O.faults out.new) ⊎ Rose (E.faults err.old) (E.faults err.new)) }
    ensures run_complete { WhereRun (map string_bytes words.now) (F.content folder.old)
        (S.left input.old) (S.left input.new) (λ files bytes left. bytes_in files ≤ most_file_bytes → length bytes ≤ most_bytes
        → (is_whole result ≡ true) ⊎ Rose (F.faults folder.old) (F.faults folder.new)
        ⊎ Rose (S.faults input.old) (S.faults input.new)
        ⊎ Rose (O.faults out.old) (O.faults out.new)) }

    // What isn't touched.
    ensures unread { result ≡ Status.Usage → folder.new ≡ folder.old }
    ensures source { asks_input (map string_bytes words.now) ≡ false → input.new ≡ input.old }
    ensures steps { steps.new ≡ steps.old }
{
    let status = carry_out(alloc, words, folder, input, out, err);
    let _ = put_all(err, status.text().as_bytes());
    status
}

// All but the text of the status.
fn carry_out<F: Folder, S: Source, O: Sink, E: Sink>(
    alloc: Global,
    words: &[String],
    folder: &mut F,
    input: &mut S,
    out: &mut O,
    err: &mut E,
) -> Status
    ensures usage { (result ≡ Status.Usage) ↔ IsNone (reading_of (map string_bytes words.now)) }
    ensures unread { result ≡ Status.Usage → folder.new ≡ folder.old }
    ensures lines { WhereCompiled (map string_bytes words.now) (F.content folder.old)
        (λ files. is_ended result ≡ true
        → Appends (E.taken err.old) (E.taken err.new) (report_bytes (reports_of files))) }
    ensures configuration { WhereCompiled (map string_bytes words.now) (F.content folder.old)
        (λ files. is_ended result ≡ true
        → Appends (O.taken out.old) (O.taken out.new) (configuration_of files)) }
    ensures status { WhereCompiled (map string_bytes words.now) (F.content folder.old)
        (λ files. is_ended result ≡ true
        → result ≡ status_of (reports_of files)) }
    ensures stopped_lines { WhereCompiled (map string_bytes words.now) (F.content folder.old)
        (λ files. is_ended result ≡ false
        → AppendsPrefix (E.taken err.old) (E.taken err.new) (report_bytes (reports_of files))) }
    ensures stopped_configuration { WhereCompiled (map string_bytes words.now)
        (F.content folder.old) (λ files. is_ended result ≡ false
        → AppendsPrefix (O.taken out.old) (O.taken out.new) (configuration_of files)) }
    ensures order { WhereCompiled (map string_bytes words.now) (F.content folder.old)
        (λ files. (out.new ≡ out.old)
        ⊎ Appends (E.taken err.old) (E.taken err.new) (report_bytes (reports_of files))) }
    ensures run_text { WhereRun (map string_bytes words.now) (F.content folder.old)
        (S.left input.old) (S.left input.new) (λ files bytes left. is_ended result ≡ true
        → Appends (O.taken out.old) (O.taken out.new) (run_text files bytes)) }
    ensures run_status { WhereRun (map string_bytes words.now) (F.content folder.old)
        (S.left input.old) (S.left input.new) (λ files bytes left. is_ended result ≡ true
        → result ≡ status_of (run_reports files bytes)) }
    ensures run_whole { WhereRun (map string_bytes words.now) (F.content folder.old)
        (S.left input.old) (S.left input.new) (λ files bytes left. is_ended result ≡ true
        → left ≡ []) }
    ensures run_stopped { WhereRun (map string_bytes words.now) (F.content folder.old)
        (S.left input.old) (S.left input.new) (λ files bytes left. is_ended result ≡ false
        → AppendsPrefix (O.taken out.old) (O.taken out.new) (run_text files bytes)) }
    ensures run_err { asks_input (map string_bytes words.now) ≡ true → err.new ≡ err.old }
    ensures silent { is_silent result ≡ true → (err.new ≡ err.old) × (out.new ≡ out.old) }
    ensures limit_silent { result ≡ Status.InputLimit → asks_input (map string_bytes words.now)
        ≡ false
        → (err.new ≡ err.old) × (out.new ≡ out.old) }
    ensures too_many { WhereTold (map string_bytes words.now) (F.content folder.old)
        (λ files. most_file_bytes < bytes_in files
        → out.new ≡ out.old) }
    ensures folder_fault { result ≡ Status.FolderFault
        → Rose (F.faults folder.old) (F.faults folder.new) }
    ensures run_output_fault { asks_input (map string_bytes words.now) ≡ true
        → result ≡ Status.OutputFault
        → Rose (O.faults out.old) (O.faults out.new) }
    ensures input_fault { result ≡ Status.InputFault
        → (asks_input (map string_bytes words.now) ≡ true)
        × Rose (S.faults input.old) (S.faults input.new) }
    ensures output_fault { result ≡ Status.OutputFault
        → Rose (O.faults out.old) (O.faults out.new) ⊎ Rose (E.faults err.old) (E.faults err.new) }
    ensures limit { WhereCompiled (map string_bytes words.now) (F.content folder.old)
        (λ files. result ≡ Status.InputLimit
        → most_file_bytes < bytes_in files) }
    ensures within { WhereTold (map string_bytes words.now) (F.content folder.old)
        (λ files. most_file_bytes < bytes_in files
        → is_cut_short result ≡ true) }
    ensures run_limit { WhereRun (map string_bytes words.now) (F.content folder.old)
        (S.left input.old) (S.left input.new) (λ files bytes left. result ≡ Status.InputLimit
        → (most_file_bytes < bytes_in files) ⊎ (most_bytes + length left < length bytes)) }
    ensures run_within { WhereRun (map string_bytes words.now) (F.content folder.old)
        (S.left input.old) (S.left input.new) (λ files bytes left. most_bytes < length bytes
        → is_ended result ≡ false) }
    ensures source { asks_input (map string_bytes words.now) ≡ false → input.new ≡ input.old }
    ensures later { E.faults err.old ≤ E.faults err.new }
{
    match read_words(words) {
        Some(Reading::Compile(dir)) => compile(alloc, dir, folder, out, err),
        Some(Reading::Run(dir)) => run(alloc, dir, folder, input, out),
        None => Status::Usage,
    }
}
