ghost use Rattle.std.specs.Prelude.{◌≡◌, ◌++◌, ◌∷◌, [], IfOk};
ghost use Rattle.op_edges.specs.Lines.{newline};
ghost use Rattle.cfg_types.specs.Written.{HasSpans, config_text};
ghost use Rattle.op_thin.specs.Compiled.{config_of};

use cfg_types::{Config, text};
use op_base::{List, NoMemory};
use op_thin::{Objects, compile as compile_objects};
use std::alloc::Global;

/// The configuration of the objects present, and its text with a newline.
pub fn configuration(alloc: Global, objects: Objects) -> Result<(Config, List<u8>), NoMemory>
    ensures config { IfOk result (λ made. made.0 ≡ config_of objects) }
    ensures text { IfOk result (λ made. made.1 ≡ config_text (config_of objects) ++ newline ∷ []) }
{
    let config = compile_objects(alloc, objects)?;
    let bytes = text_line(alloc, &config)?;
    Ok((config, bytes))
}

// The text of the configuration, with a newline.
fn text_line(alloc: Global, config: &Config) -> Result<List<u8>, NoMemory>
    requires { HasSpans config.now }
    ensures { IfOk result (λ bytes. bytes ≡ config_text config.now ++ newline ∷ []) }
{
    let mut bytes = text(alloc, config)?;
    bytes.push(b'\n')?;
    Ok(bytes)
}
