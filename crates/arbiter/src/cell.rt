//! What a row of a report has in a column: a number, a text, a truth, or nothing.

ghost use Rattle.std.specs.Prelude.{◌≡◌, option_map};
ghost use Rattle.arbiter.specs.Cells.{Number, Text, Truth, Nothing, maybe, name_and_value};

/// What a row has in a column.
#[derive(Clone, Copy)]
pub enum Value<'v> {
    Number(u64),
    /// A text that is UTF-8.
    Word(&'v str),
    /// A text of any bytes.
    Text(&'v [u8]),
    Truth(bool),
    Nothing,
}

/// A column's name, and what a row has there.
#[derive(Clone, Copy)]
pub struct Cell<'v> {
    pub name: &'static str,
    pub value: Value<'v>,
}

/// A number.
pub fn number<'v>(name: &'static str, value: u64) -> Cell<'v>
    ensures { name_and_value result ≡ (name.now, Number value) }
{
    Cell {
        name,
        value: Value::Number(value),
    }
}

/// A number, if it is there.
pub fn any_number<'v>(name: &'static str, value: Option<u32>) -> Cell<'v>
    ensures { name_and_value result ≡ (name.now, maybe Number value) }
{
    match value {
        Some(value) => number(name, value as u64),
        None => nothing(name),
    }
}

/// A text that is UTF-8.
pub fn word<'v>(name: &'static str, value: &'v str) -> Cell<'v>
    ensures { name_and_value result ≡ (name.now, Text value.now) }
{
    Cell {
        name,
        value: Value::Word(value),
    }
}

/// A text that is UTF-8, if it is there.
pub fn any_word<'v>(name: &'static str, value: Option<&'static str>) -> Cell<'v>
    ensures { name_and_value result ≡ (name.now, maybe Text (option_map (λ v. v.now) value.entry)) }
{
    match value {
        Some(value) => word(name, value),
        None => nothing(name),
    }
}

/// A text of any bytes.
pub fn text<'v>(name: &'static str, value: &'v [u8]) -> Cell<'v>
    ensures { name_and_value result ≡ (name.now, Text value.now) }
{
    Cell {
        name,
        value: Value::Text(value),
    }
}

/// A text of any bytes, if it is there.
pub fn any_text<'v>(name: &'static str, value: Option<&'v [u8]>) -> Cell<'v>
    ensures { name_and_value result ≡ (name.now, maybe Text (option_map (λ v. v.now) value.entry)) }
{
    match value {
        Some(value) => text(name, value),
        None => nothing(name),
    }
}

/// `true` or `false`.
pub fn truth<'v>(name: &'static str, value: bool) -> Cell<'v>
    ensures { name_and_value result ≡ (name.now, Truth value) }
{
    Cell {
        name,
        value: Value::Truth(value),
    }
}

/// `true` or `false`, if it is known.
pub fn any_truth<'v>(name: &'static str, value: Option<bool>) -> Cell<'v>
    ensures { name_and_value result ≡ (name.now, maybe Truth value) }
{
    match value {
        Some(value) => truth(name, value),
        None => nothing(name),
    }
}

/// A value that isn't there.
pub fn nothing<'v>(name: &'static str) -> Cell<'v>
    ensures { name_and_value result ≡ (name.now, Nothing) }
{
    Cell {
        name,
        value: Value::Nothing,
    }
}
