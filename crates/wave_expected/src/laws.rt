//! Laws of what may stand at a place.
ghost use Rattle.wave_expected.specs.ExpectedLaws.{ReadTokensStandBefore, UnexpectedMayNotFollow, BracketsAreForms};

/// Where a token, the end or what is no token is refused, the tokens before its span, after which
/// `expected_at` tells there what may stand, are those that were read; and where a token is unexpected,
/// no token of its class may stand there.
pub fn unexpected_may_not_follow()
    ensures before { ReadTokensStandBefore }
    ensures unexpected { UnexpectedMayNotFollow }
{}

/// The brackets that are open after tokens that begin a value are as many as the open forms, with the
/// braces in which no value is expected.
pub fn open_brackets_are_forms()
    ensures { BracketsAreForms }
{}
