// The pointer variable that an expression goes through, where there is one.
ghost use Rattle.std.specs.Prelude.{◌≡◌, option_to_list};
ghost use Rattle.rules.specs.Acts.{data_through, pointer_through, value_through};

use rules::{DExp, PExp, Value};

// Stays beside data_through: the paper has two kinds of expression, and rules a type for each.
pub fn pointer_through(e: PExp) -> Option<u8>
    ensures { option_to_list result ≡ pointer_through e }
{
    match e {
        PExp::PointerVariable(_) => None,
        PExp::SelectorOf(p, _) => Some(p),
    }
}

pub fn data_through(e: DExp) -> Option<u8>
    ensures { option_to_list result ≡ data_through e }
{
    match e {
        DExp::DataVariable(_) => None,
        DExp::DataOf(p) => Some(p),
    }
}

pub fn value_through(value: Value) -> Option<u8>
    ensures { option_to_list result ≡ value_through value }
{
    match value {
        Value::Held(e) => data_through(e),
        Value::Constant(_) | Value::Sum(_, _) => None,
    }
}
