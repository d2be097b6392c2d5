// The card of a list of pairs, and the outline of a text, where there has to be one.
use cards::Card;
use std::process::Abort;
use std::test::Fail;
use text::Outline;

// The card that the pairs make.
pub(crate) fn card(pairs: &[(u16, u16)]) -> Result<Card, Fail> {
    Ok(Card::from_pairs(pairs)?)
}

// The outline of the formula of a text, whose clauses then lie in the cells.
pub(crate) fn read(text: &str, literals: &mut [u16], ends: &mut [u16]) -> Result<Outline, Fail> {
    text::read(text.as_bytes(), literals, ends).map_err(|_| Fail::new("no formula"))
}

// The card moves no code, be it one of a literal or not.
pub(crate) fn moves_nothing(rt: &impl Abort, card: &Card) {
    for code in 0..=u16::MAX {
        assert_eq!(rt; card.image(code), code);
    }
}
