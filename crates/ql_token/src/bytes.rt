ghost use Rattle.std.specs.Prelude.{◌≡◌, ◌≤◌, length};
ghost use Rattle.std.specs.List.{prefix_len};
ghost use Rattle.op_base.specs.Names.{is_metric_start, is_metric_byte};
ghost use Rattle.ql_tree.specs.Tokens as spec;

pub(crate) fn is_blank(b: u8) -> bool
    ensures { result ≡ spec.is_blank b }
{
    b == b' ' || b == b'\t' || b == b'\n' || b == b'\r'
}

/// How many bytes of white space or comment begin the text: one white byte, or a comment up to the
/// end of its line.
#[tactic(auto, unfolding(ql_tree::specs::Tokens::gap_at))]
pub(crate) fn gap(bytes: &[u8]) -> usize
    ensures gap { result ≡ spec.gap_at bytes.now }
    ensures within { result ≤ length bytes.now }
{
    match bytes {
        [b, behind @ ..] => {
            if is_blank(*b) {
                1
            } else if *b == b'#' {
                1 + line(behind)
            } else {
                0
            }
        }
        [] => 0,
    }
}

fn line(bytes: &[u8]) -> usize
    ensures line { result ≡ prefix_len spec.is_in_line bytes.now }
    ensures within { result ≤ length bytes.now }
{
    bytes.iter().take_while(|b| **b != b'\n').count()
}

/// How many bytes of a word, or of digits with what follows them of a word, begin the text.
pub(crate) fn run(bytes: &[u8]) -> usize
    ensures run { result ≡ spec.run_at bytes.now }
    ensures within { result ≤ length bytes.now }
{
    bytes.iter().take_while(|b| is_word_byte(**b)).count()
}

pub(crate) fn is_word_start(b: u8) -> bool
    ensures { result ≡ is_metric_start b }
{
    b.is_ascii_alphabetic() || b == b'_' || b == b':'
}

fn is_word_byte(b: u8) -> bool
    ensures { result ≡ is_metric_byte b }
{
    b.is_ascii_alphanumeric() || b == b'_' || b == b':'
}
