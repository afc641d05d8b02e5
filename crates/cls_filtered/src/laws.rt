//! What holds of every filtered rule book, as calls that do nothing and promise the law.
ghost use Rattle.cls_filtered.specs.Laws.{FilteredBooksGenerate, FilteredBooksAreOne};

/// The start of a filtered book generates exactly the terms that node 0 of the book generates and the filter accepts.
pub fn filtered_books_generate()
    ensures { FilteredBooksGenerate }
{}

/// The filtered book of a book and a filter is one list of rules.
pub fn filtered_books_are_one()
    ensures { FilteredBooksAreOne }
{}
