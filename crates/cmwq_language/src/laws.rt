//! What one may believe of the page without reading how it is put together. The functions do nothing.
ghost use Rattle.cmwq_language.specs.Page.{HasEachFlag};

/// The page names just the flags that a listing has, in their order.
pub fn page_names_each_flag()
    ensures { HasEachFlag }
{}
