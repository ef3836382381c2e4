ghost use Rattle.std.specs.Prelude.{◌≡◌, ◌++◌, map, OnOk, OnErr};
ghost use Rattle.std.specs.Fmt.{decimal, signed_decimal};
ghost use Rattle.fst_base.specs.Values.{chain, plain_value};
ghost use Rattle.fst_values.specs.Printing.{IsFront, separator};
ghost use Rattle.fst_values.specs.Texts.{text_of};

use fst_base::{OutOfMemory, Seq, Value};

/// Appends the printed text of the value. On want of memory the list is as before.
pub fn print_value(value: &Value, out: &mut Seq<u8>) -> Result<(), OutOfMemory>
    ensures ok { OnOk result (out.new ≡ out.old ++ text_of (plain_value value.now)) }
    ensures err { OnErr result (out.new ≡ out.old) }
{
    let before = out.len();
    match print(value, out) {
        Ok(()) => Ok(()),
        Err(fault) => {
            out.truncate(before);
            Err(fault)
        }
    }
}

#[cycle(print)]
fn print(value: &Value, out: &mut Seq<u8>) -> Result<(), OutOfMemory>
    ensures ok { OnOk result (out.new ≡ out.old ++ text_of (plain_value value.now)) }
    ensures err { OnErr result (IsFront out.old out.new) }
{
    match value {
        Value::Unit => out.extend_from_slice(b"()"),
        Value::Bool(true) => out.extend_from_slice(b"true"),
        Value::Bool(false) => out.extend_from_slice(b"false"),
        Value::Int(number) => print_number(*number, out),
        Value::Pair(first, second) => {
            out.extend_from_slice(b"(")?;
            print(first.get(), out)?;
            out.extend_from_slice(b", ")?;
            print(second.get(), out)?;
            out.extend_from_slice(b")")
        }
        Value::Nothing => out.extend_from_slice(b"none"),
        Value::Just(part) => {
            out.extend_from_slice(b"some ")?;
            print(part.get(), out)
        }
        Value::List(items) => print_list(items.as_slice(), out),
        Value::Left(part) => {
            out.extend_from_slice(b"inl ")?;
            print(part.get(), out)
        }
        Value::Right(part) => {
            out.extend_from_slice(b"inr ")?;
            print(part.get(), out)
        }
    }
}

#[cycle(print)]
fn print_list(items: &[Value], out: &mut Seq<u8>) -> Result<(), OutOfMemory>
    ensures ok { OnOk result (out.new ≡ out.old ++ text_of (chain (map plain_value items.now))) }
    ensures err { OnErr result (IsFront out.old out.new) }
{
    out.extend_from_slice(b"[")?;
    for (at, item) in items.iter().enumerate() {
        print_separator(at, out)?;
        print(item, out)?;
    }
    out.extend_from_slice(b"]")
}

/// Appends what stands before the item of this number of a list, from 0.
fn print_separator(at: usize, out: &mut Seq<u8>) -> Result<(), OutOfMemory>
    ensures ok { OnOk result (out.new ≡ out.old ++ separator at) }
    ensures err { OnErr result (out.new ≡ out.old) }
{
    if at > 0 {
        out.extend_from_slice(b"; ")
    } else {
        Ok(())
    }
}

fn print_number(number: i128, out: &mut Seq<u8>) -> Result<(), OutOfMemory>
    ensures ok { OnOk result (out.new ≡ out.old ++ signed_decimal number) }
    ensures err { OnErr result (IsFront out.old out.new) }
{
    if number < 0 {
        out.extend_from_slice(b"-")?;
    }
    print_digits(number.unsigned_abs(), out)
}

/// Appends the digits of a number, of which there are at most 39.
fn print_digits(number: u128, out: &mut Seq<u8>) -> Result<(), OutOfMemory>
    ensures ok { OnOk result (out.new ≡ out.old ++ decimal number) }
    ensures err { OnErr result (IsFront out.old out.new) }
{
    let last = b'0' + (number % 10) as u8;
    if number >= 10 {
        print_digits(number / 10, out)?;
        return out.push(last);
    }
    out.push(last)
}
