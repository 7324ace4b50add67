//! A stack of values.

ghost use Rattle.std.specs.Prelude.{◌≡◌, [], ◌∷◌, ◌++◌, Some, None, OnOk, OnErr, IfSome, IfNone, reverse};
ghost use Rattle.std.specs.Prelude.{drop, false, length, true, ◌<◌, ◌≤◌};
ghost use Rattle.machine_terms.specs.Stacks.{LacksNumber, LacksSpace};
ghost use Rattle.machine_terms.specs.declared.value.Value.TheVariants.{Number, Space};

use crate::value::Value;
use index_spaces::Ispace;
use std::alloc::{AllocError, Global};
use std::marker::Model;
use std::mem;

/// A stack, which contracts see as the list of its values from the top down.
///
/// The place of a value that was taken off stays, so that the next push writes it in place.
#[derive(Drop)]
pub struct Stack {
    values: Vec<Value>,
    top: usize,
}

impl Model for Stack {
    ghost use Rattle.std.specs.Prelude.{List, length, reverse, take, ◌≤◌};
    ghost use Rattle.machine_terms.specs.declared.value.Value.{Value as MachineValue};

    ghost Value = { List MachineValue };

    ghost view = { λ s. reverse (take s.top s.values.items) };

    ghost invariant = { λ s. s.top ≤ length s.values.items };
}

impl Stack {
    /// The empty stack; it takes no memory.
    pub fn new(alloc: Global) -> Self
        ensures { result ≡ [] }
    {
        Stack {
            values: Vec::new(alloc),
            top: 0,
        }
    }

    pub fn push(&mut self, value: Value) -> Result<(), AllocError>
        ensures ok { OnOk result (self.new ≡ value ∷ self.old) }
        ensures err { OnErr result (self.new ≡ self.old) }
    {
        if self.top < self.values.len() {
            self.values[self.top] = value;
            self.top += 1;
            Ok(())
        } else {
            grow(&mut self.values, value)?;
            self.top += 1;
            Ok(())
        }
    }

    /// Pushes a number, in place where there is room.
    #[inline(always)]
    pub fn push_number(&mut self, z: i64) -> Result<(), AllocError>
        ensures ok { OnOk result (self.new ≡ Number z ∷ self.old) }
        ensures err { OnErr result (self.new ≡ self.old) }
    {
        if self.top < self.values.len() {
            self.values[self.top].set_number(z);
            self.top += 1;
            Ok(())
        } else {
            grow(&mut self.values, Value::Number(z))?;
            self.top += 1;
            Ok(())
        }
    }

    /// Pushes a number where there is a place for one, and says whether it did.
    #[inline(always)]
    pub fn push_in_place(&mut self, z: i64) -> bool
        ensures done { result ≡ true → self.new ≡ Number z ∷ self.old }
        ensures kept { result ≡ false → self.new ≡ self.old }
    {
        if self.top >= self.values.len() {
            return false;
        }
        match &mut self.values[self.top] {
            Value::Number(old) => {
                *old = z;
                self.top += 1;
                true
            }
            _ => false,
        }
    }

    pub fn pop(&mut self) -> Option<Value>
        ensures some { IfSome result (λ v. self.old ≡ v ∷ self.new) }
        ensures none { IfNone result ((self.old ≡ []) × (self.new ≡ [])) }
    {
        if self.top == 0 {
            return None;
        }
        self.top -= 1;
        Some(mem::replace(&mut self.values[self.top], Value::Number(0)))
    }

    /// Takes a number off the top. Where there is none, the stack stays as it is.
    #[inline(always)]
    pub fn pop_number(&mut self) -> Option<i64>
        ensures some { IfSome result (λ z. self.old ≡ Number z ∷ self.new) }
        ensures none { IfNone result (LacksNumber self.old) }
        ensures kept { IfNone result (self.new ≡ self.old) }
    {
        if self.top == 0 {
            return None;
        }
        match &self.values[self.top - 1] {
            Value::Number(z) => {
                let number = *z;
                self.top -= 1;
                Some(number)
            }
            _ => None,
        }
    }

    /// The number on top.
    #[inline(always)]
    pub fn top_number(&self) -> Option<i64>
        ensures { IfSome result (λ z. self.now ≡ Number z ∷ drop 1 self.now) }
    {
        if self.top == 0 {
            return None;
        }
        match &self.values[self.top - 1] {
            Value::Number(z) => Some(*z),
            _ => None,
        }
    }

    /// The two numbers on top, the lower one first.
    #[inline(always)]
    pub fn top_numbers(&self) -> Option<(i64, i64)>
        ensures { IfSome result (λ r. self.now ≡ Number r.1 ∷ Number r.0 ∷ drop 2 self.now) }
    {
        if self.top < 2 {
            return None;
        }
        match (&self.values[self.top - 2], &self.values[self.top - 1]) {
            (Value::Number(a), Value::Number(b)) => Some((*a, *b)),
            _ => None,
        }
    }

    /// Takes so many values off.
    #[inline(always)]
    pub fn take_off(&mut self, count: usize)
        requires { count ≤ length self.old }
        ensures { self.new ≡ drop count self.old }
    {
        self.top -= count;
    }

    /// Puts a number in the place of so many values.
    #[inline(always)]
    pub fn replace(&mut self, count: usize, z: i64)
        requires some { 0 < count }
        requires there { count ≤ length self.old }
        ensures { self.new ≡ Number z ∷ drop count self.old }
    {
        self.values[self.top - count].set_number(z);
        self.top -= count - 1;
    }

    /// The stack of these values, the lowest first; it takes no memory.
    pub(crate) fn from_bottom(values: Vec<Value>) -> Stack
        ensures { result ≡ reverse values.items }
    {
        let top = values.len();
        Stack { values, top }
    }

    /// The values, the lowest first.
    pub(crate) fn as_bottom(&self) -> &[Value]
        ensures { reverse result.now ≡ self.now }
    {
        &self.values.as_slice()[..self.top]
    }

    /// Takes an index space off the top. Where there is none, the stack stays as it is.
    pub fn pop_space(&mut self) -> Option<Ispace>
        ensures some { IfSome result (λ n. self.old ≡ Space n ∷ self.new) }
        ensures none { IfNone result (LacksSpace self.old) }
        ensures kept { IfNone result (self.new ≡ self.old) }
    {
        if self.top == 0 {
            return None;
        }
        match &self.values[self.top - 1] {
            Value::Space(space) => {
                let space = *space;
                self.top -= 1;
                Some(space)
            }
            _ => None,
        }
    }
}

/// Puts a value behind all places.
#[cold]
#[inline(never)]
fn grow(values: &mut Vec<Value>, value: Value) -> Result<(), AllocError>
    ensures ok { OnOk result (values.new.items ≡ values.old.items ++ value ∷ []) }
    ensures err { OnErr result (values.new.items ≡ values.old.items) }
{
    values.push(value)?;
    Ok(())
}
