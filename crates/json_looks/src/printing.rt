//! Objects of JSON, printed.
ghost use Rattle.std.specs.Prelude.{◌≡◌, ◌≢◌, ◌≤◌, IfErr, IfOk, OnOk};
ghost use Rattle.command_faults.specs.declared.faults.CommandFault.TheVariants as faults;
ghost use Rattle.json_looks.specs.Objects.{IsObjectFault, IsObjectPrinted, refused_data};
ghost use Rattle.serde_json.specs.Data.{depth};
ghost use Rattle.serde_json.specs.Read.{max_depth};
ghost use Rattle.serde_json.specs.View.{view};

use command_faults::{CommandFault, put};
use serde_json::{Value, json};
use std::alloc::{AllocError, Global};
use std::io::Write;

/// Prints an object in a line of its own. `NoMemory`: nothing was printed. `File` if the output failed, which may then have a
/// part.
pub(crate) fn print_object<W: Write>(
    alloc: Global,
    object: &Value,
    out: &mut W,
) -> Result<(), CommandFault>
    requires { depth (view object.now) ≤ max_depth }
    ensures ok { OnOk result (IsObjectPrinted W.contents (view object.now) out.old out.new) }
    ensures err { IfErr result IsObjectFault }
    ensures untouched { IfErr result (λ fault. (fault ≢ faults.File) → out.new ≡ out.old) }
{
    let Ok(text) = object.to_string(alloc) else {
        return Err(CommandFault::NoMemory);
    };
    put(out, text.as_bytes())?;
    put(out, b"\n")
}

/// The object of an image that is refused for this reason.
fn refused_value(alloc: Global, name: &str, why: &str) -> Result<Value, AllocError>
    ensures { IfOk result (λ value. view value ≡ refused_data name.now why.now) }
{
    json!(in alloc; {"name": name, "refused": why})
}

/// Prints the object of the image of this name, which is refused for this reason.
///
/// `NoMemory`: nothing was printed. `File` if the output failed, which may then have a part.
pub fn print_refused<W: Write>(
    alloc: Global,
    name: &str,
    why: &str,
    out: &mut W,
) -> Result<(), CommandFault>
    ensures ok { OnOk result (IsObjectPrinted W.contents (refused_data name.now why.now) out.old out.new) }
    ensures err { IfErr result IsObjectFault }
    ensures untouched { IfErr result (λ fault. (fault ≢ faults.File) → out.new ≡ out.old) }
{
    let Ok(value) = refused_value(alloc, name, why) else {
        return Err(CommandFault::NoMemory);
    };
    print_object(alloc, &value, out)
}
