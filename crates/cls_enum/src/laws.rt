//! What holds of every rule book and request, as calls that do nothing and promise the law.
ghost use Rattle.cls_enum.specs.Laws.{EachPageExists, EachPageIsDecided};

/// Each page has a deciding size, and a pool at it: so the bound on terms is either met or passed.
pub fn each_page_is_decided()
    ensures { EachPageIsDecided }
{}

/// Each request has its page.
pub fn each_page_exists()
    ensures { EachPageExists }
{}
