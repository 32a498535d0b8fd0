//! The code of debug access sequences: a text is cut into tokens, and tokens are read as statements
//! or as an expression.
#![tactic(auto)]

mod code;
mod cursor;
mod fault;
mod front;
pub mod laws;
mod lexer;
mod limit;
mod made;
mod operators;
mod parse;
mod parser;
mod statements;
mod token;
mod token_list;
mod values;

pub use code::{Arg, Args, BinaryOp, CalledName, Code, Expr, Name, Stmt, TextArg, UnaryOp};
pub use lexer::tokens;
pub use parse::{ParseError, parse_code, parse_expr};
pub use token::{Token, TokenKind};
pub use token_list::{TokenError, Tokens};
pub use values::{binary_value, unary_value};
