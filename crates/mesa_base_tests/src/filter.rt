// What the words of filters and queries give, which keys filters take, and which short keys may hold such.
mod filters;
mod keys;
mod places;
mod queries;
