ghost use Rattle.std.specs.Prelude.{◌≡◌, ◌≤◌, ◌<◌, ◌+◌, ◌^◌, ◌++◌, length, OnOk};
ghost use Rattle.std.specs.Fmt.{decimal};
ghost use Rattle.fst_top.specs.Printed.{place_text};

use fst_base::{OutOfMemory, Pos, Seq, Value};
use fst_values::print_value;

/// Appends the digits of a number.
pub fn print_number(number: u128, out: &mut Seq<u8>) -> Result<(), OutOfMemory>
    requires { number < 2 ^ 127 }
    ensures { OnOk result (out.new ≡ out.old ++ decimal number) }
{
    print_value(&Value::Int(number as i128), out)
}

/// Appends the line and the column of a place; past the text's end it is that of the end.
pub fn print_place(text: &[u8], at: Pos, out: &mut Seq<u8>) -> Result<(), OutOfMemory>
    requires short { length text.now + 1 < 2 ^ 32 }
    ensures { OnOk result (out.new ≡ out.old ++ place_text text.now at.at) }
{
    let within = Pos {
        at: at.at.min(text.len() as u32),
    };
    let (line, column) = within.place(text);
    print_number(u128::from(line), out)?;
    out.extend_from_slice(b":")?;
    print_number(u128::from(column), out)
}
