// Functions of the libraries with ample memory, and values from outside.

mod certificates;
mod flows;
mod tops;
mod words;
