// No behaviour: the course of a capture, word by word, and its laws. 02, request 01.
#![tactic(auto)]
