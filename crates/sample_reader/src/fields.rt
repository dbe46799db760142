// The fields of samples: values and binary values.
ghost use Rattle.std.specs.Prelude.{◌≡◌, ◌^◌, ◌<◌, Err, IfErr, IfOk, Ok, nat_abs};
ghost use Rattle.sample_reader.specs.Values.{binary_in, is_missing_label, is_missing_value, kind_of, label_in, value_in};

use number_text::{NumberFault, read_value, trim};
use record_reader::Kind;

// The kind of a number text's fault.
fn kind_of(fault: NumberFault) -> Kind
    ensures { result ≡ kind_of fault }
{
    match fault {
        NumberFault::Missing => Kind::Missing,
        NumberFault::NotNumber => Kind::NotNumber,
        NumberFault::OutOfRange => Kind::OutOfRange,
    }
}

// The value of a field, in units of 10^-18.
pub(crate) fn value_in(text: &[u8]) -> Result<i128, Kind>
    ensures value { result ≡ value_in text.now }
    ensures in_range { IfOk result (λ value. nat_abs value < 10 ^ 36) }
{
    match read_value(text) {
        Ok(value) => Ok(value),
        Err(fault) => Err(kind_of(fault)),
    }
}

// Whether a value is missing.
pub(crate) fn is_missing_value(text: &[u8]) -> bool
    ensures { result ≡ is_missing_value text.now }
{
    matches!(trim(text), b"" | b"NA")
}

// Whether a label is missing.
pub(crate) fn is_missing_label(text: &[u8]) -> bool
    ensures { result ≡ is_missing_label text.now }
{
    trim(text).is_empty()
}

// The number of a field that is 0 or 1.
pub(crate) fn binary_in(text: &[u8]) -> Result<i128, Kind>
    ensures value { result ≡ binary_in text.now }
    ensures in_range { IfOk result (λ value. nat_abs value < 10 ^ 36) }
{
    if is_missing_value(text) {
        return Err(Kind::Missing);
    }
    match trim(text) {
        b"0" => Ok(0),
        b"1" => Ok(1),
        _ => Err(Kind::NotBinary),
    }
}

// The label of a field.
pub(crate) fn label_in(text: &[u8]) -> Result<&[u8], Kind>
    ensures label { IfOk result (λ label. label_in text.now ≡ Ok label.now) }
    ensures fault { IfErr result (λ kind. label_in text.now ≡ Err kind) }
{
    if is_missing_label(text) {
        return Err(Kind::Missing);
    }
    Ok(trim(text))
}
