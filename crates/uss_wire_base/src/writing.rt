ghost use Rattle.std.specs.Prelude.{◌≡◌, IfOk};
ghost use Rattle.serde_json.specs.Data.{Data};
ghost use Rattle.serde_json.specs.View.{view};
ghost use Rattle.uss_wire_base.specs.Writing.{IsPlain, IsTextOf, list_json};

use serde_json::Value;
use std::alloc::{AllocError, Global};

/// How the items of a list are written. The writers of this crate go through a list by it.
pub trait WriteItem<T> {
    /// The value that stands for an item.
    ghost json: { Self → T → Data };

    /// Makes the value of one item.
    fn write_item(&self, alloc: Global, item: &T) -> Result<Value, AllocError>
        ensures { IfOk result (λ v. view v ≡ json self.now item.now) };
}

/// A list of the items in their order.
pub fn list<T, W: WriteItem<T>>(alloc: Global, writer: &W, items: &[T]) -> Result<Value, AllocError>
    ensures { IfOk result (λ v. view v ≡ list_json (W.json writer.now) items.now) }
{
    let mut list = Vec::new(alloc);
    for item in items {
        list.push(writer.write_item(alloc, item)?)?;
    }
    Ok(Value::Array(list))
}

/// The bytes of a message: compact, in the order of the value.
pub fn message(alloc: Global, value: &Value) -> Result<Vec<u8>, AllocError>
    requires { IsPlain (view value.now) }
    ensures { IfOk result (λ bytes. IsTextOf (view value.now) bytes.items) }
{
    value.to_vec(alloc)
}
