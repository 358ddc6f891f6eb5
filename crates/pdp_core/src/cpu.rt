// The registers, the memory behind them, and how an instruction ends.
use pdp_code::Reg;

/// The registers R0 to R7, of which R6 is the stack pointer and R7 the program counter, and the flags N, Z, V and C.
#[derive(Clone, Copy)]
pub struct Regs {
    pub r: [u16; 8],
    pub n: bool,
    pub z: bool,
    pub v: bool,
    pub c: bool,
}

/// Why the memory refuses an access, with its address.
#[derive(Debug, Clone, Copy)]
pub enum Refused {
    Odd(u16),
    Access(u16),
}

/// The kinds of fault: a word at an odd address; a word outside the instruction table, or a register or number that it
/// leaves out; an access that the task may not make; a jump to a register.
#[derive(Debug, Clone, Copy, PartialEq, Eq)]
pub enum Kind {
    Odd,
    Reserved,
    Access,
    BadJump,
}

/// Why an instruction has no effect: the kind, with the address of the access, or of the instruction where it is
/// reserved or a bad jump.
#[derive(Clone, Copy)]
pub struct Failure {
    pub kind: Kind,
    pub at: u16,
}

/// How an instruction ended.
#[derive(Clone, Copy, PartialEq, Eq)]
pub enum Stop {
    /// The next instruction may follow.
    Went,
    /// It asks for the monitor's service of that number.
    Trap(u8),
    /// Nothing has changed: the kind, and the address of the access or of the instruction.
    Fault(Kind, u16),
}

/// Whether an instruction was carried out. What stopped it is told beside.
#[derive(Clone, Copy)]
pub enum Done {
    Went,
    Stopped,
}

/// Where an operand is.
#[derive(Clone, Copy)]
pub enum Place {
    InRegister(Reg),
    InMemory(u16),
    /// A word that stands in the code as an operand of the instruction: its address, and itself as it was fetched.
    InCode(u16, u16),
}

/// The same for the code, which has a register by its number: the three low bits count.
#[derive(Clone, Copy)]
pub enum Spot {
    Register(u16),
    Memory(u16),
    Code(u16, u16),
}
