//! Of tag heads, and of the words by which octets are refused.

mod heads;
mod refusals;
