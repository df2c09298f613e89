// Sheets, prices, books and measures on examples, with the answers that they should get.
#![tactic(auto)]

#[cfg(test)]
mod book_tests;
#[cfg(test)]
mod measure_tests;
#[cfg(test)]
mod quote_tests;
#[cfg(test)]
mod sheet_tests;
mod sheet_texts;
