//! The operations and the sizes as types: what is generic over them is built for each by itself, so that no code asks which it is.

ghost use Rattle.pdp_code.specs.declared.instruction.DoubleOp.{DoubleOp};
ghost use Rattle.pdp_code.specs.declared.instruction.SingleOp.{SingleOp};
ghost use Rattle.pdp_code.specs.declared.instruction.Size.{Size};
ghost use Rattle.pdp_code.specs.declared.instruction.SumOp.{SumOp};

use crate::{DoubleOp, SingleOp, Size, SumOp};

/// What is done with a source and a destination, of words or bytes.
pub trait OnTwo {
    ghost OP: { DoubleOp };

    const OP: DoubleOp;
}

/// What is done with a source and a destination, of words alone.
pub trait OnSum {
    ghost OP: { SumOp };

    const OP: SumOp;
}

/// What is done with one operand, of words or bytes.
pub trait OnOne {
    ghost OP: { SingleOp };

    const OP: SingleOp;
}

/// Words or bytes.
pub trait Width {
    ghost SIZE: { Size };

    const SIZE: Size;
}

pub struct Mov;

impl OnTwo for Mov {
    ghost OP = { DoubleOp.Mov };

    const OP: DoubleOp = DoubleOp::Mov;
}

pub struct Cmp;

impl OnTwo for Cmp {
    ghost OP = { DoubleOp.Cmp };

    const OP: DoubleOp = DoubleOp::Cmp;
}

pub struct Bit;

impl OnTwo for Bit {
    ghost OP = { DoubleOp.Bit };

    const OP: DoubleOp = DoubleOp::Bit;
}

pub struct Bic;

impl OnTwo for Bic {
    ghost OP = { DoubleOp.Bic };

    const OP: DoubleOp = DoubleOp::Bic;
}

pub struct Bis;

impl OnTwo for Bis {
    ghost OP = { DoubleOp.Bis };

    const OP: DoubleOp = DoubleOp::Bis;
}

pub struct Add;

impl OnSum for Add {
    ghost OP = { SumOp.Add };

    const OP: SumOp = SumOp::Add;
}

pub struct Sub;

impl OnSum for Sub {
    ghost OP = { SumOp.Sub };

    const OP: SumOp = SumOp::Sub;
}

pub struct Clr;

impl OnOne for Clr {
    ghost OP = { SingleOp.Clr };

    const OP: SingleOp = SingleOp::Clr;
}

pub struct Com;

impl OnOne for Com {
    ghost OP = { SingleOp.Com };

    const OP: SingleOp = SingleOp::Com;
}

pub struct Inc;

impl OnOne for Inc {
    ghost OP = { SingleOp.Inc };

    const OP: SingleOp = SingleOp::Inc;
}

pub struct Dec;

impl OnOne for Dec {
    ghost OP = { SingleOp.Dec };

    const OP: SingleOp = SingleOp::Dec;
}

pub struct Neg;

impl OnOne for Neg {
    ghost OP = { SingleOp.Neg };

    const OP: SingleOp = SingleOp::Neg;
}

pub struct Adc;

impl OnOne for Adc {
    ghost OP = { SingleOp.Adc };

    const OP: SingleOp = SingleOp::Adc;
}

pub struct Sbc;

impl OnOne for Sbc {
    ghost OP = { SingleOp.Sbc };

    const OP: SingleOp = SingleOp::Sbc;
}

pub struct Tst;

impl OnOne for Tst {
    ghost OP = { SingleOp.Tst };

    const OP: SingleOp = SingleOp::Tst;
}

pub struct Ror;

impl OnOne for Ror {
    ghost OP = { SingleOp.Ror };

    const OP: SingleOp = SingleOp::Ror;
}

pub struct Rol;

impl OnOne for Rol {
    ghost OP = { SingleOp.Rol };

    const OP: SingleOp = SingleOp::Rol;
}

pub struct Asr;

impl OnOne for Asr {
    ghost OP = { SingleOp.Asr };

    const OP: SingleOp = SingleOp::Asr;
}

pub struct Asl;

impl OnOne for Asl {
    ghost OP = { SingleOp.Asl };

    const OP: SingleOp = SingleOp::Asl;
}

pub struct Words;

impl Width for Words {
    ghost SIZE = { Size.Word };

    const SIZE: Size = Size::Word;
}

pub struct Bytes;

impl Width for Bytes {
    ghost SIZE = { Size.Byte };

    const SIZE: Size = Size::Byte;
}
