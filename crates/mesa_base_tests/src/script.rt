// Scripts that are read and a generated one, words that the program is called with, and replies and pages that are printed, against texts written by hand.
mod heads;
mod pages;
mod scripts;
mod words;
