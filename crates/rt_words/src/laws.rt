// The laws of words and their operators. Each is a function that does nothing, whose contract is the law.
ghost use Rattle.std.specs.Prelude.{◌+ℤ◌, ◌-ℤ◌, ◌*ℤ◌};
ghost use Rattle.rt_words.specs.Word.{wrap_add, wrap_sub};
ghost use Rattle.rt_words.specs.Operators.{wrap_mul};
ghost use Rattle.rt_words.specs.Laws.{WordBack, SignedBack, SignedRange, WrapsAs, ExactIn, SignedOrder, MakesUp, RemainderBelow, Splits, Joins};

/// A word and the number for which it stands determine each other.
pub fn words_are_numbers()
    ensures word { WordBack }
    ensures number { SignedBack }
    ensures range { SignedRange }
{}

/// Sums, differences and products of words are those of the numbers, cut to 16 bits.
pub fn words_wrap()
    ensures sum { WrapsAs wrap_add (λ x y. x +ℤ y) }
    ensures difference { WrapsAs wrap_sub (λ x y. x -ℤ y) }
    ensures product { WrapsAs wrap_mul (λ x y. x *ℤ y) }
{}

/// They are those of the numbers where a word can stand for these.
pub fn words_are_exact()
    ensures sum { ExactIn wrap_add (λ x y. x +ℤ y) }
    ensures difference { ExactIn wrap_sub (λ x y. x -ℤ y) }
    ensures product { ExactIn wrap_mul (λ x y. x *ℤ y) }
{}

/// The signed order is the order of the words, each half a turn further on.
pub fn words_are_ordered()
    ensures { SignedOrder }
{}

/// Quotient and remainder make up the dividend, and the remainder is nearer to 0 than the divisor.
pub fn division_is_whole()
    ensures makes_up { MakesUp }
    ensures below { RemainderBelow }
{}

/// Two bytes, the low one first, and their word determine each other.
pub fn bytes_are_words()
    ensures splits { Splits }
    ensures joins { Joins }
{}
