ghost use Rattle.std.specs.Prelude.{◌≡◌};
ghost use Rattle.std.specs.List.{list_all, slice_split};
ghost use Rattle.op_base.specs.Names as spec;

/// Whether the text is a namespace: 1 to 63 lower-case letters, digits and `-`, with a letter or
/// digit at both ends (a DNS label, as Kubernetes asks).
pub fn is_namespace(text: &str) -> bool
    ensures { result ≡ spec.is_namespace text.now }
{
    let bytes = text.as_bytes();
    bytes.len() <= 63 && is_part(bytes)
}

/// Whether the text is an object's name: at most 253 bytes, parts joined by `.` (a DNS subdomain,
/// as Kubernetes asks).
pub fn is_name(text: &str) -> bool
    ensures { result ≡ spec.is_name text.now }
{
    let bytes = text.as_bytes();
    bytes.len() <= 253 && all_parts(bytes)
}

/// Whether the text is a label name of the Prometheus data model: `[a-zA-Z_][a-zA-Z0-9_]*`.
pub fn is_label_name(text: &str) -> bool
    ensures { result ≡ spec.is_label_name text.now }
{
    let bytes = text.as_bytes();
    let begins = match bytes.get(0) {
        Some(b) => is_label_start(*b),
        None => false,
    };
    begins && all_label_bytes(bytes)
}

/// Whether the text is a metric name of the Prometheus data model: `[a-zA-Z_:][a-zA-Z0-9_:]*`.
pub fn is_metric_name(text: &str) -> bool
    ensures { result ≡ spec.is_metric_name text.now }
{
    let bytes = text.as_bytes();
    let begins = match bytes.get(0) {
        Some(b) => is_metric_start(*b),
        None => false,
    };
    begins && all_metric_bytes(bytes)
}

fn all_label_bytes(bytes: &[u8]) -> bool
    ensures { result ≡ list_all spec.is_label_byte bytes.now }
{
    bytes.iter().all(|b| is_label_byte(*b))
}

fn all_metric_bytes(bytes: &[u8]) -> bool
    ensures { result ≡ list_all spec.is_metric_byte bytes.now }
{
    bytes.iter().all(|b| is_metric_byte(*b))
}

fn all_parts(bytes: &[u8]) -> bool
    ensures { result ≡ list_all spec.is_part (slice_split spec.is_dot bytes.now) }
{
    bytes.split(|b| *b == b'.').all(|part| is_part(part))
}

fn is_part(bytes: &[u8]) -> bool
    ensures { result ≡ spec.is_part bytes.now }
{
    has_end(bytes, 0) && has_end(bytes, bytes.len().saturating_sub(1)) && all_part_bytes(bytes)
}

fn has_end(bytes: &[u8], at: usize) -> bool
    ensures { result ≡ spec.passes_at spec.is_lower_or_digit bytes.now at }
{
    match bytes.get(at) {
        Some(b) => is_lower_or_digit(*b),
        None => false,
    }
}

fn all_part_bytes(bytes: &[u8]) -> bool
    ensures { result ≡ list_all spec.is_part_byte bytes.now }
{
    bytes.iter().all(|b| is_part_byte(*b))
}

fn is_lower_or_digit(b: u8) -> bool
    ensures { result ≡ spec.is_lower_or_digit b }
{
    b.is_ascii_lowercase() || b.is_ascii_digit()
}

fn is_part_byte(b: u8) -> bool
    ensures { result ≡ spec.is_part_byte b }
{
    is_lower_or_digit(b) || b == b'-'
}

fn is_label_start(b: u8) -> bool
    ensures { result ≡ spec.is_label_start b }
{
    b.is_ascii_alphabetic() || b == b'_'
}

fn is_label_byte(b: u8) -> bool
    ensures { result ≡ spec.is_label_byte b }
{
    is_label_start(b) || b.is_ascii_digit()
}

fn is_metric_start(b: u8) -> bool
    ensures { result ≡ spec.is_metric_start b }
{
    is_label_start(b) || b == b':'
}

fn is_metric_byte(b: u8) -> bool
    ensures { result ≡ spec.is_metric_byte b }
{
    is_label_byte(b) || b == b':'
}
