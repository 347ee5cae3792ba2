// No behaviour: 01's paragraph "Power-on and reset" in one place (specs/Paragraph.antt), proved of every chip.
#![tactic(auto)]
