ghost use Rattle.std.specs.Prelude.{◌≡◌, ◌<◌, ◌+◌, ◌*◌, ◌/◌, ◌%◌, ◌^◌};
ghost use Rattle.operands.specs.Fields.{IsSigned};

use std::marker::Model;

/// The immediate of the I and S formats: 12 bits, sign-extended to 32.
#[derive(Clone, Copy, Debug, PartialEq, Eq)]
pub struct Imm12 {
    value: u32,
}

impl Model for Imm12 {
    ghost use Rattle.std.specs.Prelude.{ℕ};
    ghost use Rattle.operands.specs.Fields.{IsSigned};

    ghost Value = { ℕ };

    ghost view = { λ i. i.value };

    ghost invariant = { λ i. IsSigned 12 i.value };

    ghost inverse = { λ n. record { value = n } };
}

impl Imm12 {
    pub fn new(value: u32) -> Self
        requires { IsSigned 12 value }
        ensures { result ≡ value }
    {
        Imm12 { value }
    }

    pub fn value(self) -> u32
        ensures value { result ≡ self }
        ensures signed { IsSigned 12 result }
    {
        self.value
    }
}

/// The offset of a branch: a multiple of 2 of 13 bits, sign-extended to 32.
#[derive(Clone, Copy, Debug, PartialEq, Eq)]
pub struct BranchOffset {
    value: u32,
}

impl Model for BranchOffset {
    ghost use Rattle.std.specs.Prelude.{ℕ, ◌≡◌, ◌%◌};
    ghost use Rattle.operands.specs.Fields.{IsSigned};

    ghost Value = { ℕ };

    ghost view = { λ i. i.value };

    ghost invariant = { λ i. IsSigned 13 i.value × (i.value % 2 ≡ 0) };

    ghost inverse = { λ n. record { value = n } };
}

impl BranchOffset {
    pub fn new(value: u32) -> Self
        requires signed { IsSigned 13 value }
        requires even { value % 2 ≡ 0 }
        ensures { result ≡ value }
    {
        BranchOffset { value }
    }

    pub fn value(self) -> u32
        ensures value { result ≡ self }
        ensures signed { IsSigned 13 result }
        ensures even { result % 2 ≡ 0 }
    {
        self.value
    }
}

/// The offset of JAL: a multiple of 2 of 21 bits, sign-extended to 32.
#[derive(Clone, Copy, Debug, PartialEq, Eq)]
pub struct JumpOffset {
    value: u32,
}

impl Model for JumpOffset {
    ghost use Rattle.std.specs.Prelude.{ℕ, ◌≡◌, ◌%◌};
    ghost use Rattle.operands.specs.Fields.{IsSigned};

    ghost Value = { ℕ };

    ghost view = { λ i. i.value };

    ghost invariant = { λ i. IsSigned 21 i.value × (i.value % 2 ≡ 0) };

    ghost inverse = { λ n. record { value = n } };
}

impl JumpOffset {
    pub fn new(value: u32) -> Self
        requires signed { IsSigned 21 value }
        requires even { value % 2 ≡ 0 }
        ensures { result ≡ value }
    {
        JumpOffset { value }
    }

    pub fn value(self) -> u32
        ensures value { result ≡ self }
        ensures signed { IsSigned 21 result }
        ensures even { result % 2 ≡ 0 }
    {
        self.value
    }
}

/// The immediate of LUI and AUIPC: a multiple of 4096.
#[derive(Clone, Copy, Debug, PartialEq, Eq)]
pub struct UpperImm {
    value: u32,
}

impl Model for UpperImm {
    ghost use Rattle.std.specs.Prelude.{ℕ, ◌≡◌, ◌%◌, ◌^◌};

    ghost Value = { ℕ };

    ghost view = { λ i. i.value };

    ghost invariant = { λ i. i.value % 2 ^ 12 ≡ 0 };

    ghost inverse = { λ n. record { value = n } };
}

impl UpperImm {
    pub fn new(value: u32) -> Self
        requires { value % 2 ^ 12 ≡ 0 }
        ensures { result ≡ value }
    {
        UpperImm { value }
    }

    pub fn value(self) -> u32
        ensures value { result ≡ self }
        ensures low { result % 2 ^ 12 ≡ 0 }
        ensures bound { result < 2 ^ 32 }
    {
        self.value
    }
}

/// By how many places a shift by an immediate goes, 0 to 31.
#[derive(Clone, Copy, Debug, PartialEq, Eq)]
pub struct Shamt {
    value: u8,
}

impl Model for Shamt {
    ghost use Rattle.std.specs.Prelude.{ℕ, ◌<◌};

    ghost Value = { ℕ };

    ghost view = { λ i. i.value };

    ghost invariant = { λ i. i.value < 32 };

    ghost inverse = { λ n. record { value = n } };
}

impl Shamt {
    pub fn new(value: u8) -> Self
        requires { value < 32 }
        ensures { result ≡ value }
    {
        Shamt { value }
    }

    pub fn value(self) -> u32
        ensures value { result ≡ self }
        ensures bound { result < 32 }
    {
        u32::from(self.value)
    }
}

/// The offset of TBEGIN: a multiple of 4 of 13 bits, sign-extended to 32.
#[derive(Clone, Copy, Debug, PartialEq, Eq)]
pub struct AbortOffset {
    value: u32,
}

impl Model for AbortOffset {
    ghost use Rattle.std.specs.Prelude.{ℕ, ◌≡◌, ◌%◌};
    ghost use Rattle.operands.specs.Fields.{IsSigned};

    ghost Value = { ℕ };

    ghost view = { λ i. i.value };

    ghost invariant = { λ i. IsSigned 13 i.value × (i.value % 4 ≡ 0) };

    ghost inverse = { λ n. record { value = n } };
}

impl AbortOffset {
    pub fn new(value: u32) -> Self
        requires signed { IsSigned 13 value }
        requires whole { value % 4 ≡ 0 }
        ensures { result ≡ value }
    {
        AbortOffset { value }
    }

    pub fn value(self) -> u32
        ensures value { result ≡ self }
        ensures signed { IsSigned 13 result }
        ensures whole { result % 4 ≡ 0 }
    {
        self.value
    }
}

/// The bits of a FENCE beside its opcode and funct3, which are kept and have no effect:
/// bits 31 to 15 of the word above its bits 11 to 7.
#[derive(Clone, Copy, Debug, PartialEq, Eq)]
pub struct FenceBits {
    value: u32,
}

impl Model for FenceBits {
    ghost use Rattle.std.specs.Prelude.{ℕ, ◌<◌, ◌^◌};

    ghost Value = { ℕ };

    ghost view = { λ i. i.value };

    ghost invariant = { λ i. i.value < 2 ^ 22 };

    ghost inverse = { λ n. record { value = n } };
}

impl FenceBits {
    pub fn new(value: u32) -> Self
        requires { value < 2 ^ 22 }
        ensures { result ≡ value }
    {
        FenceBits { value }
    }

    pub fn value(self) -> u32
        ensures value { result ≡ self }
        ensures bound { result < 2 ^ 22 }
    {
        self.value
    }
}
