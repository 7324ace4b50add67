//! The slots of a frame that runs.

ghost use Rattle.std.specs.Prelude.{◌≡◌, ◌<◌, IfSome, Some, false, length, slice_get, slice_set, true};
ghost use Rattle.machine_terms.specs.declared.value.Value.TheVariants.{Number};

use machine_terms::Value;
use plain_values::Sequence;
use std::marker::Model;

/// The values of a frame's slots while it runs, which are written in place.
#[derive(Drop)]
pub struct Slots {
    values: Vec<Value>,
}

impl Model for Slots {
    ghost use Rattle.std.specs.Prelude.{List};
    ghost use Rattle.machine_terms.specs.declared.value.Value.{Value as MachineValue};

    ghost Value = { List MachineValue };

    ghost view = { λ s. s.values.items };
}

impl Slots {
    pub fn new(values: Sequence<Value>) -> Slots
        ensures { result ≡ values }
    {
        Slots {
            values: values.into_vec(),
        }
    }

    pub fn into_sequence(self) -> Sequence<Value>
        ensures { result ≡ self }
    {
        let Slots { values } = self;
        Sequence::from_vec(values)
    }

    #[inline(always)]
    pub fn as_slice(&self) -> &[Value]
        ensures { result.now ≡ self.now }
    {
        self.values.as_slice()
    }

    #[inline(always)]
    pub fn len(&self) -> usize
        ensures { result ≡ length self.now }
    {
        self.values.len()
    }

    /// The number in a slot.
    #[inline(always)]
    pub fn number(&self, slot: u32) -> Option<i64>
        ensures some { IfSome result (λ z. slice_get self.now slot ≡ Some (Number z)) }
        ensures there { IfSome result (λ _. slot < length self.now) }
    {
        let place = slot as usize;
        if place >= self.values.len() {
            return None;
        }
        match &self.values[place] {
            Value::Number(z) => Some(*z),
            _ => None,
        }
    }

    /// Puts a number into a slot.
    #[inline(always)]
    pub fn set_number(&mut self, slot: u32, z: i64)
        requires { slot < length self.old }
        ensures { self.new ≡ slice_set self.old slot (Number z) }
    {
        self.values[slot as usize].set_number(z);
    }

    /// Puts a number into a slot that holds one, and says whether it did.
    #[inline(always)]
    pub fn put_number(&mut self, slot: u32, z: i64) -> bool
        ensures done { result ≡ true → self.new ≡ slice_set self.old slot (Number z) }
        ensures there { result ≡ true → slot < length self.old }
        ensures kept { result ≡ false → self.new ≡ self.old }
    {
        let place = slot as usize;
        if place >= self.values.len() {
            return false;
        }
        match &mut self.values[place] {
            Value::Number(old) => {
                *old = z;
                true
            }
            _ => false,
        }
    }

    /// Puts a value into a slot.
    pub fn set(&mut self, slot: u32, value: Value)
        requires { slot < length self.old }
        ensures { self.new ≡ slice_set self.old slot value }
    {
        self.values[slot as usize] = value;
    }
}
