//! The state of one hart.

ghost use Rattle.std.specs.Prelude as prelude;
ghost use Rattle.std.specs.Prelude.{◌≡◌, ◌≤◌, ◌<◌, ◌+◌, ◌-◌, ◌++◌, ◌∷◌, [], length, map, replicate, IfOk, OnOk};
ghost use Rattle.idl_spec.specs.Harts.{with_field, write_register, stored};
ghost use Rattle.idl_spec.specs.Programs.{blank_state};
ghost use Rattle.idl_forms.specs.States.{field_of, state_of};

use std::alloc::Global;
use std::marker::Model;
use udb_base::{Copied, Name, NoMemory};

/// A field of a CSR and its number.
#[derive(Drop)]
pub struct FieldValue {
    pub csr: Name,
    pub field: Name,
    pub number: u64,
}

impl Copied for FieldValue {
    fn copy(&self, alloc: Global) -> Result<FieldValue, NoMemory> {
        let csr = self.csr.copy(alloc)?;
        Ok(FieldValue {
            csr,
            field: self.field.copy(alloc)?,
            number: self.number,
        })
    }
}

/// The numbers of fields, seen as their list, in the order of the program.
#[derive(Drop)]
pub struct FieldValues {
    values: Vec<FieldValue>,
}

impl Model for FieldValues {
    ghost use Rattle.std.specs.Prelude.{List};
    ghost use Rattle.idl_forms.specs.declared.harts.FieldValue.{FieldValue};

    ghost Value = { List FieldValue };

    ghost view = { λ f. f.values.items };
}

impl FieldValues {
    /// No fields.
    pub fn new(alloc: Global) -> FieldValues
        ensures { result ≡ [] }
    {
        FieldValues {
            values: Vec::new(alloc),
        }
    }

    /// The fields in their order.
    pub fn as_slice(&self) -> &[FieldValue]
        ensures { result.now ≡ self.now }
    {
        self.values.as_slice()
    }

    /// Appends a field.
    pub fn push(&mut self, value: FieldValue) -> Result<(), NoMemory>
        ensures { OnOk result (self.new ≡ self.old ++ value ∷ []) }
    {
        self.values.push(value)?;
        Ok(())
    }

    /// Gives the field of these names another number.
    pub fn set(&mut self, csr: &Name, field: &Name, number: u64)
        ensures { map field_of self.new
            ≡ with_field (map field_of self.old) csr.now field.now number }
    {
        for value in self.values.iter_mut() {
            if value.csr == *csr && value.field == *field {
                value.number = number;
            }
        }
    }

    fn copy(&self, alloc: Global) -> Result<FieldValues, NoMemory>
        ensures { IfOk result (λ copy. copy ≡ self.now) }
    {
        let mut copies = FieldValues::new(alloc);
        for value in self.as_slice() {
            copies.push(value.copy(alloc)?)?;
        }
        Ok(copies)
    }
}

/// The integer registers, seen as a list of 32 numbers.
#[derive(Drop)]
pub struct Registers {
    numbers: [u64; 32],
}

impl Model for Registers {
    ghost use Rattle.std.specs.Prelude.{ℕ, List};

    ghost Value = { List ℕ };

    ghost view = { λ r. r.numbers };
}

impl Registers {
    /// The registers at reset: all are 0.
    pub fn new() -> Registers
        ensures { result ≡ replicate 32 0 }
    {
        Registers { numbers: [0; 32] }
    }

    /// The registers in their order.
    pub fn as_slice(&self) -> &[u64]
        ensures value { result.now ≡ self.now }
        ensures count { length result.now ≡ 32 }
    {
        &self.numbers
    }

    /// Gives a register another number; the first keeps 0.
    pub fn set(&mut self, at: u8, number: u64)
        requires { at < 32 }
        ensures { self.new ≡ write_register self.old at number }
    {
        if at != 0 {
            self.numbers[at as usize] = number;
        }
    }

    fn copy(&self) -> Registers
        ensures { result ≡ self.now }
    {
        Registers {
            numbers: self.numbers,
        }
    }
}

/// The memory from address 0, seen as its bytes, of which there are at most 65,536.
#[derive(Drop)]
pub struct Ram {
    bytes: Vec<u8>,
}

impl Model for Ram {
    ghost use Rattle.std.specs.Prelude.{◌≤◌, ℕ, List, length};

    ghost Value = { List ℕ };

    ghost view = { λ r. r.bytes.items };

    ghost invariant = { λ r. length r.bytes.items ≤ 65536 };
}

impl Ram {
    /// The bytes, and zeros after them up to a length. The one refusal is want of memory.
    pub fn new(alloc: Global, bytes: &[u8], length: u32) -> Result<Ram, NoMemory>
        requires room { length ≤ 65536 }
        requires fit { prelude.length bytes.now ≤ length }
        ensures { IfOk result (λ ram. ram
            ≡ bytes.now ++ replicate (length - prelude.length bytes.now) 0) }
    {
        let mut all = Vec::from_slice(alloc, bytes)?;
        all.resize(length as usize, 0)?;
        Ok(Ram { bytes: all })
    }

    /// The bytes from address 0.
    pub fn as_slice(&self) -> &[u8]
        ensures value { result.now ≡ self.now }
        ensures room { length result.now ≤ 65536 }
    {
        self.bytes.as_slice()
    }

    /// Stores a number's low bytes, the lowest first.
    pub fn store(&mut self, at: usize, count: usize, number: u64)
        requires within { at + count ≤ length self.old }
        requires room { at + count ≤ 65536 }
        ensures { self.new ≡ stored self.old at count number }
    {
        let mut rest = number;
        for place in at..at + count {
            self.bytes[place] = (rest % 256) as u8;
            rest /= 256;
        }
    }

    fn copy(&self, alloc: Global) -> Result<Ram, NoMemory>
        ensures { IfOk result (λ copy. copy ≡ self.now) }
    {
        Ok(Ram {
            bytes: Vec::from_slice(alloc, self.bytes.as_slice())?,
        })
    }
}

/// The state of one hart: the integer registers, the program counter, the next one, the word that
/// runs, the present fields of CSRs in the order of the program, and the memory.
#[derive(Drop)]
pub struct HartState {
    pub x: Registers,
    pub pc: u64,
    pub next: u64,
    pub word: u32,
    pub fields: FieldValues,
    pub ram: Ram,
}

impl HartState {
    /// An equal state. The one refusal is want of memory.
    pub fn copy(&self, alloc: Global) -> Result<HartState, NoMemory>
        ensures { IfOk result (λ copy. copy ≡ self.now) }
    {
        let fields = self.fields.copy(alloc)?;
        Ok(HartState {
            x: self.x.copy(),
            pc: self.pc,
            next: self.next,
            word: self.word,
            fields,
            ram: self.ram.copy(alloc)?,
        })
    }

    /// The state for bodies that read none.
    pub fn blank(alloc: Global) -> Result<HartState, NoMemory>
        ensures { IfOk result (λ s. state_of s ≡ blank_state) }
    {
        Ok(HartState {
            x: Registers::new(),
            pc: 0,
            next: 0,
            word: 0,
            fields: FieldValues::new(alloc),
            ram: Ram::new(alloc, &[], 0)?,
        })
    }
}
