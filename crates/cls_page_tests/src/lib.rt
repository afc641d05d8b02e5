//! Tests of pages: over rule books by hand, filtered ones too, and over rule books by chance against the terms that their rules
//! generate. There is nothing here but tests.
#![tactic(auto)]

#[cfg(test)]
mod books;
#[cfg(test)]
mod filtered_pages;
#[cfg(test)]
mod generated;
#[cfg(test)]
mod hand_book;
#[cfg(test)]
mod listing;
#[cfg(test)]
mod pages;
#[cfg(test)]
mod query;
#[cfg(test)]
mod random_books;
#[cfg(test)]
mod random_pages;
