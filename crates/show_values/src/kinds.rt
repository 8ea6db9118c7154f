// How a value stands in JSON: with quotation marks, as null, or not at all.
ghost use Rattle.std.specs.Prelude.{◌≡◌, ◌&&◌, leb};
ghost use Rattle.show_values.specs.Values.{is_null, left_out, quoted};

use show_table::forms::Form;

pub fn is_quoted(form: Form) -> bool
    ensures { result ≡ quoted form }
{
    match form {
        Form::Position
        | Form::Number
        | Form::Signed
        | Form::Flag
        | Form::IsTwo
        | Form::NumberIf
        | Form::OrNull
        | Form::OrOut
        | Form::IfThere => false,
        Form::HfiCount => false,
        _ => true,
    }
}

// Whether a number is the type of a namespace identifier that has a name.
fn is_named_type(n: u64) -> bool
    ensures { result ≡ (leb 1 n && leb n 3) }
{
    matches!(n, 1..=3)
}

pub fn is_left_out(form: Form, n: u64) -> bool
    ensures { result ≡ left_out form n }
{
    match form {
        Form::OrOut => n == 0,
        Form::NidType => !is_named_type(n),
        _ => false,
    }
}

pub fn is_null(form: Form, n: u64, there: bool) -> bool
    ensures { result ≡ is_null form n there }
{
    match form {
        Form::OrNull => n == 0,
        Form::IfThere => !there,
        _ => false,
    }
}
