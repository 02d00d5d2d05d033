//! Laws of grants and their texts. Each is the contract of a function that does nothing.
ghost use Rattle.grant_text.specs.Text.{GrantsDiffer, GrantsReadBack, LinesSplitOneWay};

/// A law: what is written of a grant, with a space and a rest after it, is split into that grant and that rest and
/// into no others. So `read_grant` reads them back.
pub fn grants_are_read_back()
    ensures { GrantsReadBack }
{}

/// Laws: no line is split in two ways, and no two grants have one text.
pub fn grants_are_split_one_way()
    ensures line { LinesSplitOneWay }
    ensures text { GrantsDiffer }
{}
