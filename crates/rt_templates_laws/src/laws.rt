//! The laws.
ghost use Rattle.rt_templates_laws.specs.Laws as laws;

/// A template has as many words as its instruction weighs, and has some. So the code of a procedure that is within its items has at most 12 words
/// an item and 16, and with up to 1,363 items it is never too long.
pub fn code_is_within()
    ensures weigh { laws.TemplatesWeigh }
    ensures some { laws.NoneIsEmpty }
    ensures code { laws.CodeWeighs }
    ensures within { laws.CodeIsWithin }
    ensures never { laws.NeverTooLong }
{}

/// Each word has a mark, which is 0 or 1.
pub fn marks_are_small()
    ensures one_each { laws.CodeIsMarked }
    ensures small { laws.MarksAreSmall }
{}

/// The words of an instruction stand where its way leads, and ways lead into the code.
pub fn templates_stand()
    ensures stand { laws.TemplatesStand }
    ensures ways { laws.WaysLeadInside }
{}

/// The places of relocations rise, and lie in the code; and with the addresses put there, the words are those of the templates with
/// these addresses, whatever they are.
pub fn addresses_are_filled()
    ensures rise { laws.PlacesRise }
    ensures filled { laws.AddressesAreFilled }
{}

/// The support code has no more than 600 words, each with a mark of 0 or 1, and no relocations; and it has an entry for each number.
pub fn support_is_short()
    ensures { laws.SupportIsShort }
{}
