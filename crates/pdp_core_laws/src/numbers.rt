//! What the effects of instructions mean for the numbers that words and bytes stand for.

ghost use Rattle.std.specs.Prelude.{int_lt, int_le, nat_eq, nat_lt, nat_le, not, pos, neg_ℤ, ◌+ℤ◌, ◌-ℤ◌, ◌*ℤ◌};
ghost use Rattle.pdp_code.specs.Values.{one_if};
ghost use Rattle.pdp_core_laws.specs.Numbers.{TakenBy, TakenUnsigned, SumOverflows, SumCarries, SumStands, DifferenceOverflows, DifferenceCarries, DifferenceStands, Overflows, Carries, Stands, KeepsCarry, ShiftsLeft, RotatesLeft, RotatesRight, Halves, ShiftsRight, Product, LowWord, Wide, Quotient, Remainder, SameSign, Smaller, Division, Leftward, Doubling, Rightward, InPair};

use pdp_code::{Condition, SingleOp};

/// CMP and then a signed branch decide the signed order.
pub fn compares_signed()
    ensures less { TakenBy Condition.Less int_lt }
    ensures at_least { TakenBy Condition.AtLeast (λ x y. int_le y x) }
    ensures greater { TakenBy Condition.Greater (λ x y. int_lt y x) }
    ensures at_most { TakenBy Condition.AtMost int_le }
{}

/// CMP and then an unsigned branch decide the unsigned order, BEQ and BNE whether the numbers are equal.
pub fn compares_unsigned()
    ensures higher { TakenUnsigned Condition.Higher (λ x y. nat_lt y x) }
    ensures lower_same { TakenUnsigned Condition.LowerSame nat_le }
    ensures no_carry { TakenUnsigned Condition.NoCarry (λ x y. nat_le y x) }
    ensures carry { TakenUnsigned Condition.Carry nat_lt }
    ensures equal { TakenUnsigned Condition.Equal nat_eq }
    ensures not_equal { TakenUnsigned Condition.NotEqual (λ x y. not (nat_eq x y)) }
{}

/// ADD: V is the overflow of the signed sum, C that of the unsigned sum.
pub fn adds()
    ensures overflow { SumOverflows }
    ensures carry { SumCarries }
    ensures stands { SumStands }
{}

/// SUB and CMP: V is the overflow of the signed difference, C that of the unsigned difference.
pub fn subtracts()
    ensures overflow { DifferenceOverflows }
    ensures carry { DifferenceCarries }
    ensures stands { DifferenceStands }
{}

/// INC adds 1 and leaves C.
pub fn increments()
    ensures overflow { Overflows SingleOp.Inc (λ c n. n +ℤ pos 1) }
    ensures carry { KeepsCarry SingleOp.Inc }
    ensures stands { Stands SingleOp.Inc (λ c n. n +ℤ pos 1) }
{}

/// DEC subtracts 1 and leaves C.
pub fn decrements()
    ensures overflow { Overflows SingleOp.Dec (λ c n. n -ℤ pos 1) }
    ensures carry { KeepsCarry SingleOp.Dec }
    ensures stands { Stands SingleOp.Dec (λ c n. n -ℤ pos 1) }
{}

/// NEG subtracts from 0.
pub fn negates()
    ensures overflow { Overflows SingleOp.Neg (λ c n. neg_ℤ n) }
    ensures carry { Carries SingleOp.Neg (λ c n. neg_ℤ n) }
    ensures stands { Stands SingleOp.Neg (λ c n. neg_ℤ n) }
{}

/// ADC adds C, as 0 or 1.
pub fn adds_carry()
    ensures overflow { Overflows SingleOp.Adc (λ c n. n +ℤ pos (one_if c)) }
    ensures carry { Carries SingleOp.Adc (λ c n. n +ℤ pos (one_if c)) }
    ensures stands { Stands SingleOp.Adc (λ c n. n +ℤ pos (one_if c)) }
{}

/// SBC subtracts C, as 0 or 1.
pub fn subtracts_carry()
    ensures overflow { Overflows SingleOp.Sbc (λ c n. n -ℤ pos (one_if c)) }
    ensures carry { Carries SingleOp.Sbc (λ c n. n -ℤ pos (one_if c)) }
    ensures stands { Stands SingleOp.Sbc (λ c n. n -ℤ pos (one_if c)) }
{}

/// ASL and ROL double, and C is the bit that is lost. ROL takes C in below.
pub fn doubles()
    ensures shift { ShiftsLeft }
    ensures rotate { RotatesLeft }
    ensures overflow { Overflows SingleOp.Asl (λ c n. pos 2 *ℤ n) }
    ensures stands { Stands SingleOp.Asl (λ c n. pos 2 *ℤ n) }
{}

/// ASR and ROR halve, and C is the bit that is lost. ASR keeps the sign and rounds down, ROR takes C in above.
pub fn halves()
    ensures rounded { Halves }
    ensures shift { ShiftsRight }
    ensures rotate { RotatesRight }
{}

/// MUL is the product of signed words.
pub fn multiplies()
    ensures product { Product }
    ensures low_word { LowWord }
{}

/// DIV is the division of signed numbers that rounds towards zero.
pub fn divides()
    ensures wide { Wide }
    ensures quotient { Quotient }
    ensures remainder { Remainder }
{}

/// DIV's remainder is what the quotient leaves of the dividend: it has its sign and is smaller than the divisor.
pub fn leaves_remainders()
    ensures same_sign { SameSign }
    ensures smaller { Smaller }
    ensures division { Division }
{}

/// ASH multiplies by a power of two, or divides by it, rounded down.
pub fn shifts_words()
    ensures leftward { Leftward 65536 32768 }
    ensures doubling { Doubling 65536 32768 }
    ensures rightward { Rightward 65536 32768 }
{}

/// ASHC does so with the 32 bits of a register pair.
pub fn shifts_pairs()
    ensures leftward { Leftward 4294967296 2147483648 }
    ensures doubling { Doubling 4294967296 2147483648 }
    ensures rightward { Rightward 4294967296 2147483648 }
    ensures in_pair { InPair }
{}
