//! Laws of words. Each is the contract of a function that does nothing.

ghost use Rattle.fixed_pack.specs.Amounts.{PackedAmountsUnpack};
ghost use Rattle.fixed_pack.specs.Laws.{FirstRefusedIsTheOne, PackedIsTheOne, PackedUnpacks, RefusalIsTheOne};
ghost use Rattle.fixed_pack.specs.Laws.{UnpackedBitsPack, WordReadsBack, WordsAreTheOnes};

/// The number of a word's bytes is the number that they were made from.
pub fn word_reads_back()
    ensures { WordReadsBack }
{}

/// Lines have at most one list of words.
pub fn packed_is_the_one()
    ensures { PackedIsTheOne }
{}

/// A line is refused for at most one cause, and never if it has a word.
pub fn refusal_is_the_one()
    ensures { RefusalIsTheOne }
{}

/// An input has at most one first refused line.
pub fn first_refused_is_the_one()
    ensures { FirstRefusedIsTheOne }
{}

/// Bytes are cut into words in one way.
pub fn words_are_the_ones()
    ensures { WordsAreTheOnes }
{}

/// Each word of packed lines is unpacked to the text of its number.
pub fn packed_unpacks()
    ensures { PackedUnpacks }
{}

/// Each word of packed lines of amounts is unpacked to the text of its amount.
pub fn packed_amounts_unpack()
    ensures { PackedAmountsUnpack }
{}

/// The bits that are unpacked from a word in decimal are packed to the word.
pub fn unpacked_bits_pack()
    ensures { UnpackedBitsPack }
{}
